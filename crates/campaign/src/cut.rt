// A block cut into fragments, and its fragments as lines.
use crate::fault::Fault;
use coding::{LARGEST_FRAGMENT, MOST_FRAGMENTS};
use cutting::coder::code_into;
use cutting::layout::{Layout, layout_of};
use rules::line_rule::LineRule;
use rules::places::Places;
use rules::published::Published;
use std::fmt;

// Bytes in hexadecimal. Written straight out, since a string for each line could end the run halfway for want of memory.
#[derive(Drop)]
struct Hex<'a>(&'a [u8]);

impl<'a> fmt::Display for Hex<'a> {
    fn fmt<W: fmt::Write>(&self, f: &mut fmt::Formatter<W>) -> fmt::Result {
        for b in self.0 {
            write!(f, "{b:02x}")?;
        }
        Ok(())
    }
}

/// A block, how it is cut, and room for one fragment and its row.
#[derive(Drop)]
pub struct Cut {
    block: Vec<u8>,
    layout: Layout,
    size: u8,
    // Kept: arrays, since lists of the right length would be asked for once the block is packed, and memory could run out there.
    row: [bool; MOST_FRAGMENTS as usize],
    fragment: [u8; LARGEST_FRAGMENT as usize],
}

impl Cut {
    /// Cuts the block into fragments of `size` bytes, or says why it cannot be.
    pub(crate) fn plan(rt: &HostRuntime, block: Vec<u8>, size: u8) -> Result<Cut, Fault> {
        let length = block.len();
        let layout = u32::try_from(length)
            .ok()
            .and_then(|length| layout_of(length, size))
            .ok_or(Fault::Large { length, size })?;
        let m = layout.fragments;
        if !Published.serves(Published::ALGO, m) {
            return Err(Fault::Small { fragments: m, size });
        }
        let padding = layout.padding;
        println!(rt;
            "cut: {m} fragments of {size} bytes, the last with {padding} bytes of filler"
        )?;
        Ok(Cut {
            block,
            layout,
            size,
            row: [false; MOST_FRAGMENTS as usize],
            fragment: [0; LARGEST_FRAGMENT as usize],
        })
    }

    /// How many fragments the block has.
    pub(crate) fn fragments(&self) -> u16 {
        self.layout.fragments
    }

    /// Prints fragment `n`.
    pub(crate) fn print(&mut self, rt: &HostRuntime, n: u16) -> Result<(), Fault> {
        let m = self.fragments();
        let marks = usize::from(m).min(self.row.len());
        let size = usize::from(self.size).min(self.fragment.len());
        Published.fill(Published::ALGO, m, n, &mut self.row)?;
        code_into(
            self.block.as_slice(),
            size,
            &self.row[..marks],
            &mut self.fragment,
        )?;
        let hex = Hex(&self.fragment[..size]);
        if n <= m {
            println!(rt; "{n:>5}  {hex}")?;
        } else {
            let places = Places(&self.row[..marks]);
            println!(rt; "{n:>5}  {hex} = sum of{places}")?;
        }
        Ok(())
    }
}

// Packs a pitch table into a block, cuts it into fragments, and prints them with spare ones of the published rule.
#![tactic(auto)]

mod cut;
mod fault;
mod options;

use cut::Cut;
use fault::Fault;
use options::read_options;
use pitch::pack::pack;
use pitch_text::text::read_table;
use rules::line_rule::LAST;
use std::fs;
use std::process::ExitCode;

// The block of the table in a file.
fn block_of(rt: &HostRuntime, path: &str) -> Result<Vec<u8>, Fault> {
    let heap = rt.alloc();
    let named = || String::from_str(heap, path);
    let text = fs::read(rt, path).try_map_err(|_| Ok(Fault::Unread { path: named()? }))?;
    let table = read_table(heap, text.as_slice()).try_map_err(|fault| {
        Ok(Fault::Text {
            path: named()?,
            fault,
        })
    })?;
    let block = pack(heap, &table).map_err(|_| Fault::Block)?;
    let millimetres = table.entries.len();
    let axis = table.axis;
    let screw = table.screw;
    let length = block.len();
    println!(rt; "table: axis {axis}, screw {screw}, {millimetres} mm")?;
    println!(rt; "block: {length} bytes")?;
    Ok(block)
}

fn run(rt: &HostRuntime) -> Result<(), Fault> {
    let options = read_options(rt)?;
    let block = block_of(rt, options.table.as_str())?;
    let mut cut = Cut::plan(rt, block, options.size)?;
    let m = cut.fragments();
    let spares = options.spares;
    let last = m.saturating_add(spares);
    if last > LAST {
        return Err(Fault::Spares {
            fragments: m,
            most: LAST.saturating_sub(m),
        });
    }
    for n in 1..=last {
        cut.print(rt, n)?;
    }
    println!(rt; "handled: {m} fragments of the block and {spares} to spare")?;
    Ok(())
}

fn main(rt: HostRuntime) -> ExitCode {
    match run(&rt) {
        Ok(()) => ExitCode::SUCCESS,
        Err(fault) => {
            // Where even this cannot be written, the exit status still tells.
            let _ = eprintln!(rt; "campaign: {fault}");
            ExitCode::FAILURE
        }
    }
}

// A table as a block of bytes: `PT`, the axis, the screw's number, the count, a zero, and four bytes for each millimetre.
ghost use Rattle.std.specs.Prelude.{◌≡◌, ◌/◌, map, length, IfOk, Ok, MatchResult, slice_index};
ghost use Rattle.std.specs.Option.{ok_or};
ghost use Rattle.std.specs.Simd.{first_chunks};
ghost use Rattle.pitch.specs.declared.pack.PitchFault.TheVariants.{Memory, Axis as NoAxis};
ghost use Rattle.pitch.specs.Block.{code, four_of, head_of, block_of, parts_of, axis_of, entry_in, parsed, Unpacks};

use crate::table::{Axis, Entry, MOST_MILLIMETRES, Table};
use std::alloc::{AllocError, AllocFailed, Global};

/// Why a block is no table, or why there is none.
#[derive(Clone, Copy, PartialEq, Eq, Debug)]
pub enum PitchFault {
    /// There is not enough memory.
    Memory,
    /// There are fewer than eight bytes, or a fixed byte is wrong.
    Header,
    /// The axis is not 0, 1 or 2.
    Axis,
    /// There are more than 2000 millimetres.
    Count,
    /// There are more or fewer bytes than the count wants.
    Length,
}

// Kept: two impls, since the library has two errors of memory, and a clause names what `?` makes of each.
impl From<AllocError> for PitchFault {
    ghost from_gives = { λ _ r. r ≡ Memory };

    fn from(_e: AllocError) -> PitchFault {
        PitchFault::Memory
    }
}

impl<T: Drop> From<AllocFailed<T>> for PitchFault {
    ghost from_gives = { λ _ r. r ≡ Memory };

    fn from(_e: AllocFailed<T>) -> PitchFault {
        Self::Memory
    }
}

/// The byte of an axis in a block.
impl From<Axis> for u8 {
    ghost from_gives = { λ axis r. r ≡ code axis };

    fn from(axis: Axis) -> u8 {
        match axis {
            Axis::X => 0,
            Axis::Y => 1,
            Axis::Z => 2,
        }
    }
}

/// The axis of a byte in a block.
impl TryFrom<u8> for Axis {
    type Error = PitchFault;

    ghost try_from_gives = { λ b r. r ≡ ok_or (axis_of b) NoAxis };

    fn try_from(b: u8) -> Result<Axis, PitchFault> {
        match b {
            0 => Ok(Axis::X),
            1 => Ok(Axis::Y),
            2 => Ok(Axis::Z),
            _ => Err(PitchFault::Axis),
        }
    }
}

/// The four bytes of a millimetre, from which it can be read again.
impl From<Entry> for [u8; 4] {
    ghost from_gives = { λ e r. (r ≡ four_of e) × (entry_in r ≡ e) };

    fn from(e: Entry) -> [u8; 4] {
        let [a, b] = e.forward.to_le_bytes();
        let [c, d] = e.back.to_le_bytes();
        [a, b, c, d]
    }
}

/// The millimetre of four bytes.
impl From<[u8; 4]> for Entry {
    ghost from_gives = { λ four r. r ≡ entry_in four };

    fn from([a, b, c, d]: [u8; 4]) -> Entry {
        Entry {
            forward: i16::from_le_bytes([a, b]),
            back: i16::from_le_bytes([c, d]),
        }
    }
}

// The first eight bytes of a block.
fn header(heap: Global, axis: Axis, screw: u16, count: u16) -> Result<Vec<u8>, PitchFault>
    ensures { MatchResult result (λ v. v.items ≡ head_of axis screw count) (λ e. e ≡ Memory) }
{
    let [s, t] = screw.to_le_bytes();
    let [m, n] = count.to_le_bytes();
    let bytes = [b'P', b'T', u8::from(axis), s, t, m, n, 0];
    Ok(Vec::from_slice(heap, &bytes)?)
}

/// Makes a block of a table. The block says what the table holds, so that `unpack` gives the same table.
pub fn pack(heap: Global, table: &Table) -> Result<Vec<u8>, PitchFault>
    ensures block { MatchResult result (λ v. v.items ≡ block_of (parts_of table.now)) (λ e. e ≡ Memory) }
    ensures back { IfOk result (λ v. parsed v.items ≡ Ok (parts_of table.now)) }
{
    let count = table.entries.len() as u16;
    let mut out = header(heap, table.axis, table.screw, count)?;
    for e in table.entries.iter() {
        let four = <[u8; 4]>::from(*e);
        out.extend_from_slice(&four)?;
    }
    Ok(out)
}

// The millimetres of the bytes after a head.
fn entries_in(heap: Global, body: &[u8]) -> Result<Vec<Entry>, PitchFault>
    ensures { MatchResult result (λ v. v.items ≡ map entry_in (first_chunks 4 (length body.now / 4) body.now)) (λ e. e ≡ Memory) }
{
    let (fours, _) = body.as_chunks::<4>();
    Ok(fours.iter().map(|four| Entry::from(*four)).collect(heap)?)
}

/// Makes a table of a block, or says the first fault in it. Where there is a table, `bytes` are its block.
pub fn unpack(heap: Global, bytes: &[u8]) -> Result<Table, PitchFault>
    ensures answer { Unpacks result (parsed bytes.now) }
    ensures block { IfOk result (λ t. bytes.now ≡ block_of (parts_of t)) }
{
    let [b'P', b'T', axis, s, t, m, n, 0, body @ ..] = bytes else {
        return Err(PitchFault::Header);
    };
    let axis = Axis::try_from(*axis)?;
    let screw = u16::from_le_bytes([*s, *t]);
    let count = usize::from(u16::from_le_bytes([*m, *n]));
    if count > MOST_MILLIMETRES {
        return Err(PitchFault::Count);
    }
    if body.len() != 4 * count {
        return Err(PitchFault::Length);
    }
    let entries = entries_in(heap, body)?;
    Ok(Table {
        axis,
        screw,
        entries,
    })
}

// The store of cells as a trait: its meaning is a ghost member, and its calls are equations over that.
ghost use Rattle.std.specs.Prelude.{◌≡◌};
ghost use Rattle.cells.specs.Meaning.{Meaning, Bounded};
ghost use Rattle.cells.specs.Calls.{ReadBy, WroteBy, admitted};

use crate::fault::StoreFault;

/// The most cells of a store.
pub const MOST_CELLS: usize = 512;

/// The most bytes of a cell.
pub const LARGEST_CELL: usize = 239;

/// A store of cells, numbered from 0. It means how many cells there are and how many bytes each has, which never change; the bytes of each
/// cell; and which cells take a write now. Which of them take one after a write is left open here: a kind of store that can tell does so in its meaning.
pub trait Store {
    ghost meaning: { Self → Meaning };

    // Each kind of store gives the proof.
    ghost bounds: { (s : Self) → Bounded (meaning s) };

    /// How many cells there are.
    fn count(&self) -> usize
        ensures { result ≡ (meaning self.now).count };

    /// How many bytes a cell has.
    fn size(&self) -> usize
        ensures { result ≡ (meaning self.now).size };

    /// Fills the list with the first bytes of the cell `p`. Refused for its place, then for its length; either leaves the list.
    fn read(&self, p: usize, out: &mut [u8]) -> Result<(), StoreFault>
        ensures { ReadBy (meaning self.now) p out.old result out.new };

    /// Makes the cell `p` the bytes and then zeros; the other cells keep theirs. A write of no bytes is a write.
    /// Refused for its place, then for its length, then as worn; each leaves all that the store means.
    fn write(&mut self, p: usize, bytes: &[u8]) -> Result<(), StoreFault>
        ensures { WroteBy (meaning self.old) p bytes.now result (meaning self.new) };
}

/// Refuses a call for `n` bytes of the cell `p` for its place, and then for its length.
// Kept: count and size as numbers, since a slice that is read as a bottom's has no store to ask.
pub fn admit(count: usize, size: usize, p: usize, n: usize) -> Result<(), StoreFault>
    ensures { result ≡ admitted count size p n }
{
    if p >= count {
        return Err(StoreFault::Place(p));
    }
    if n > size {
        return Err(StoreFault::Length(p));
    }
    Ok(())
}

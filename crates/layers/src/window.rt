// A window on a store: some of its cells in a row, numbered from 0 again.
ghost use Rattle.std.specs.Prelude.{◌≡◌, ◌+◌, ◌<◌};
ghost use Rattle.cells.specs.Calls.{Becomes, WroteBy};
ghost use Rattle.layers.specs.Windows.{window_of, windowed_bounded};

use cells::fault::StoreFault;
use cells::store::Store;

/// Up to `cells` cells of the store below, from its cell `from` on: as many of them as are there.
#[derive(Drop)]
pub struct Window<S> {
    below: S,
    from: usize,
    cells: usize,
}

impl<S: Store> Window<S> {
    /// Lays a window on the store. Any numbers will do: what lies past the end of the store is cut off.
    pub fn new(below: S, from: usize, cells: usize) -> Window<S>
        ensures below { result.below ≡ below }
        ensures from { result.from ≡ from }
        ensures cells { result.cells ≡ cells }
    {
        Window { below, from, cells }
    }

    /// Takes the window off, and hands back the store below.
    pub fn end(self) -> S
        ensures { result ≡ self.below }
    {
        let Window {
            below,
            from: _,
            cells: _,
        } = self;
        below
    }
}

/// Cell `p` of the window is cell `from + p` below. A refusal names the cell that the window was asked for.
impl<S: Store> Store for Window<S> {
    ghost meaning = { λ s. window_of S.Store.meaning s };

    ghost bounds = { λ s. windowed_bounded s.from s.cells (S.Store.meaning s.below) (S.Store.bounds s.below) };

    fn count(&self) -> usize {
        self.cells.min(self.below.count().saturating_sub(self.from))
    }

    fn size(&self) -> usize {
        self.below.size()
    }

    fn read(&self, p: usize, out: &mut [u8]) -> Result<(), StoreFault> {
        if p >= self.count() {
            return Err(StoreFault::Place(p));
        }
        let at = self.from + p;
        self.below.read(at, out).map_err(|fault| fault.at(p))
    }

    // Beside what any store says of a write: what it makes of the store below, and that the window stays where it is.
    // Kept: the test of the place, here as in `read`, since the proof of a write does not close over a function that has it.
    fn write(&mut self, p: usize, bytes: &[u8]) -> Result<(), StoreFault>
        ensures store { WroteBy (window_of S.Store.meaning self.old) p bytes.now result (window_of S.Store.meaning self.new) }
        ensures below { Becomes (S.Store.meaning self.old.below) (self.old.from + p) bytes.now result (S.Store.meaning self.new.below) }
        ensures kept { (self.new.from ≡ self.old.from) × (self.new.cells ≡ self.old.cells) }
    {
        if p >= self.count() {
            return Err(StoreFault::Place(p));
        }
        let at = self.from + p;
        self.below.write(at, bytes).map_err(|fault| fault.at(p))
    }
}

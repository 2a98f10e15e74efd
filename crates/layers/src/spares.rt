// Spares: a layer that holds back the last cells of a store, and puts them in the place of cells that take no write.
ghost use Rattle.std.specs.Prelude.{◌≡◌, ◌+◌, ◌<◌, ◌≤◌, length, replicate, is_ok, if◌then◌else◌};
ghost use Rattle.cells.specs.Meaning.{most_cells};
ghost use Rattle.cells.specs.Calls.{Becomes, WroteBy};
ghost use Rattle.layers.specs.declared.spare.Spare.TheVariants.{Free};
ghost use Rattle.layers.specs.Places.{SpareLaws};
ghost use Rattle.layers.specs.Spared.{most_spares, place_of, held_in, left_in, place_in, spares_of, goes_to, table_then, spares_bounded};

use crate::scan::{find_own, move_to, try_spares};
use crate::spare::Spare;
use cells::fault::StoreFault;
use cells::store::{Store, admit};

/// The most cells that are held back.
pub const MOST_SPARES: usize = 16;

/// The store below, with its last cells held back as spares: `held` of them, or fewer where that is more than there are or may be.
#[derive(Drop)]
pub struct Spares<S> {
    below: S,
    held: usize,
    // Kept: an array of fixed size, since a layer takes no heap; `held` is what was asked for, as `new` promises.
    table: [Spare; MOST_SPARES],
}

impl<S: Store> Spares<S> {
    /// Holds back the last `held` cells of the store, all unused. Any number will do: it is cut to `MOST_SPARES` and to what is there.
    pub fn new(below: S, held: usize) -> Spares<S>
        ensures below { result.below ≡ below }
        ensures held { result.held ≡ held }
        ensures table { result.table ≡ replicate most_spares Free }
    {
        Spares {
            below,
            held,
            table: [Spare::Free; MOST_SPARES],
        }
    }

    /// Takes the layer off, and hands back the store below. Which cell lies where is forgotten.
    pub fn end(self) -> S
        ensures { result ≡ self.below }
    {
        let Spares {
            below,
            held: _,
            table: _,
        } = self;
        below
    }

    // How many cells are held back.
    fn spare_cells(&self) -> usize
        ensures { result ≡ held_in S.Store.meaning self.now }
    {
        self.held.min(MOST_SPARES).min(self.below.count())
    }

    // Where the cell `p` lies below.
    fn place_of(&self, p: usize) -> usize
        requires { p < left_in S.Store.meaning self.now }
        ensures { result ≡ place_in S.Store.meaning self.now p }
    {
        match find_own(&self.table[..self.spare_cells()], p) {
            Some(own) => self.count() + own,
            None => p,
        }
    }

    // Writes the bytes to the cell `p` at its place, or else to a spare that becomes its place. Kept apart from `write`, whose exit so needs no answer
    // written out.
    fn write_cell(&mut self, p: usize, bytes: &[u8]) -> Result<(), StoreFault>
        requires here { p < left_in S.Store.meaning self.old }
        requires short { length bytes.now ≤ (S.Store.meaning self.old.below).size }
        ensures store { WroteBy (spares_of S.Store.meaning self.old) p bytes.now result (spares_of S.Store.meaning self.new) }
        ensures below { Becomes (S.Store.meaning self.old.below) (goes_to S.Store.meaning self.old p bytes.now) bytes.now result (S.Store.meaning self.new.below) }
        ensures table { self.new.table ≡ (if is_ok result then table_then S.Store.meaning self.old p bytes.now else self.old.table) }
        ensures kept { self.new.held ≡ self.old.held }
    {
        let at = self.place_of(p);
        if self.below.write(at, bytes).is_ok() {
            return Ok(());
        }
        let base = self.count();
        let spares = &self.table[..self.spare_cells()];
        let j = try_spares(&mut self.below, spares, base, bytes).ok_or(StoreFault::Worn(p))?;
        move_to(&mut self.table, j, p);
        Ok(())
    }
}

/// Where cells lie: at first each at itself, and never two at one place. A cell takes a write exactly when its place or an unused spare does. A write
/// goes to the place if that takes it, else to the lowest unused spare that does, which is the place from then on; the other cells' places stay. A
/// spare once used stays used. Answers how many laws these are.
#[tactic(auto, using(crate::proofs::PlaceLaws::spare_laws))]
pub fn spare_laws_hold() -> u8
    ensures count { result ≡ 11 }
    ensures laws { SpareLaws }
{
    11
}

/// A cell's place is first itself. A write to a cell whose place takes none goes to the lowest unused spare that takes one,
/// which is its place from then on. A spare once used stays used. A refusal names the cell that the layer was asked for.
impl<S: Store> Store for Spares<S> {
    ghost meaning = { λ s. spares_of S.Store.meaning s };

    ghost bounds = { λ s. spares_bounded s.held s.table (S.Store.meaning s.below) (S.Store.bounds s.below) };

    fn count(&self) -> usize {
        self.below.count() - self.spare_cells()
    }

    fn size(&self) -> usize {
        self.below.size()
    }

    // Kept: the test of the place, as in `Window`, since `place_of` is asked for cells that are there.
    #[tactic(auto, using(crate::specs::Spared::place_below))]
    fn read(&self, p: usize, out: &mut [u8]) -> Result<(), StoreFault> {
        if p >= self.count() {
            return Err(StoreFault::Place(p));
        }
        let at = self.place_of(p);
        self.below.read(at, out).map_err(|fault| fault.at(p))
    }

    // Beside what any store says of a write: where it goes below and what it makes of the store there, and what the table is then.
    fn write(&mut self, p: usize, bytes: &[u8]) -> Result<(), StoreFault>
        ensures store { WroteBy (spares_of S.Store.meaning self.old) p bytes.now result (spares_of S.Store.meaning self.new) }
        ensures below { Becomes (S.Store.meaning self.old.below) (goes_to S.Store.meaning self.old p bytes.now) bytes.now result (S.Store.meaning self.new.below) }
        ensures table { self.new.table ≡ (if is_ok result then table_then S.Store.meaning self.old p bytes.now else self.old.table) }
        ensures kept { self.new.held ≡ self.old.held }
    {
        admit(self.count(), self.size(), p, bytes.len())?;
        self.write_cell(p, bytes)
    }
}

// Why a store refuses a call.
ghost use Rattle.std.specs.Prelude.{◌≡◌, Some};
ghost use Rattle.cells.specs.Refusals.{refusal_at, fault_text};

use std::fmt;

/// Why a store refuses a call. Each kind holds the cell that was asked for.
#[derive(Clone, Copy, PartialEq, Eq, Debug)]
pub enum StoreFault {
    /// The store has no such cell.
    Place(usize),
    /// More bytes than a cell has.
    Length(usize),
    /// The cell takes no write now.
    Worn(usize),
}

impl StoreFault {
    /// The same kind of refusal, of the cell `p`: a layer names the cell that it was asked for, not the one below.
    pub fn at(self, p: usize) -> StoreFault
        ensures { result ≡ refusal_at p self }
    {
        match self {
            StoreFault::Place(_) => StoreFault::Place(p),
            StoreFault::Length(_) => StoreFault::Length(p),
            StoreFault::Worn(_) => StoreFault::Worn(p),
        }
    }
}

impl fmt::Display for StoreFault {
    ghost output = { λ f. Some (fault_text f) };

    fn fmt<W: fmt::Write>(&self, f: &mut fmt::Formatter<W>) -> fmt::Result {
        match self {
            StoreFault::Place(p) => write!(f, "place cell={p}"),
            StoreFault::Length(p) => write!(f, "length cell={p}"),
            StoreFault::Worn(p) => write!(f, "worn cell={p}"),
        }
    }
}

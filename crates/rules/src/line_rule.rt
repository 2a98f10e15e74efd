// What a line rule means, and what it answers.
ghost use Rattle.std.specs.Prelude.{◌≡◌, ℕ, Bool, length, Some, None, Option, nat_le};
ghost use Rattle.coding.specs.Rows.{Row};
ghost use Rattle.rules.specs.Filling.{answered, filled, length_if, numbered, fault_text};
ghost use Rattle.rules.specs.RuleLaws.{RuleLaws};

use std::fmt;

/// Why a list of marks was left as it was.
#[derive(Clone, Copy, PartialEq, Eq, Debug)]
pub enum RowFault {
    /// The list is shorter than the row would be.
    Short,
    /// The pair is not served, or the number has no row.
    NoRow,
}

impl fmt::Display for RowFault {
    ghost output = { λ f. Some (fault_text f) };

    fn fmt<W: fmt::Write>(&self, f: &mut fmt::Formatter<W>) -> fmt::Result {
        match self {
            RowFault::Short => write!(f, "short"),
            RowFault::NoRow => write!(f, "none"),
        }
    }
}

/// The last fragment number that can have a row: N has 14 bits.
pub const LAST: u16 = 16383;

// How long the row of number n is in a list of `room` marks, or why there is none; `served` says whether the pair is.
pub(crate) fn row_length(served: bool, m: u16, n: u16, room: usize) -> Result<usize, RowFault>
    ensures { result ≡ length_if (nat_le m room) (numbered served n) m }
{
    let len = usize::from(m);
    if room < len {
        return Err(RowFault::Short);
    }
    if !served || n == 0 || n > LAST {
        return Err(RowFault::NoRow);
    }
    Ok(len)
}

/// A line rule: which pairs of FragAlgo and M (NbFrag) it serves, and for a served pair and each fragment number N a row of M marks or none.
/// Its answers follow that meaning each time, and asking changes nothing.
pub trait LineRule {
    // Kept: FragAlgo as the wire's number, since any byte may be asked for.
    ghost served: { Self → ℕ → ℕ → Bool };

    ghost row: { Self → ℕ → ℕ → ℕ → Option Row };

    /// Whether the rule serves the pair.
    fn serves(&self, algo: u8, m: u16) -> bool
        ensures { result ≡ served self.now algo m };

    /// Fills the first `m` places with the row of number `n`. A list shorter than `m` is answered `Short`, whatever the pair;
    /// without a row the answer is `NoRow`. Either leaves the list.
    fn fill(&self, algo: u8, m: u16, n: u16, marks: &mut [bool]) -> Result<(), RowFault>
        ensures answer { result ≡ answered (nat_le m (length marks.old)) (row self.now algo m n) }
        ensures list { marks.new ≡ filled (nat_le m (length marks.old)) (row self.now algo m n) marks.old };

    // It serves no FragAlgo above 7, has a row for served pairs and numbers to the last only, and one for M has M marks.
    ghost laws: { (s : Self) → RuleLaws (served s) (row s) };
}

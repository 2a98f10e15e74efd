// A table of pitch errors.
ghost use Rattle.std.specs.Prelude.{◌≡◌, ◌<◌, ◌≤◌, Some, [], ◌∷◌, ◌++◌, is_ok, if◌then◌else◌, vec_len, MatchResult, nat_lt};
ghost use Rattle.pitch.specs.Names.{axis_name};
ghost use Rattle.pitch.specs.Limits.{most_millimetres};
ghost use Rattle.pitch.specs.declared.table.TableFault.TheVariants.{Memory, TooMany};

use std::alloc::Global;
use std::fmt;

/// The axis that the screw drives.
#[derive(Clone, Copy, PartialEq, Eq, Debug)]
pub enum Axis {
    /// The axis X.
    X,
    /// The axis Y.
    Y,
    /// The axis Z.
    Z,
}

impl fmt::Display for Axis {
    ghost output = { λ axis. Some (axis_name axis) };

    fn fmt<W: fmt::Write>(&self, f: &mut fmt::Formatter<W>) -> fmt::Result {
        f.write_str(match self {
            Axis::X => "X",
            Axis::Y => "Y",
            Axis::Z => "Z",
        })
    }
}

/// The errors at one millimetre, in micrometres: on the way out and on the way back.
#[derive(Clone, Copy, PartialEq, Eq, Debug)]
pub struct Entry {
    /// The error on the way out.
    pub forward: i16,
    /// The error on the way back.
    pub back: i16,
}

/// The most millimetres of a table.
pub const MOST_MILLIMETRES: usize = 2000;

/// The errors of one screw, a millimetre apart.
#[derive(Drop)]
pub struct Table {
    /// The axis that the screw drives.
    pub axis: Axis,
    /// The screw's number.
    pub screw: u16,
    /// The millimetres in their order, at most `MOST_MILLIMETRES`.
    pub entries: Vec<Entry>,
    ghost few: { vec_len entries ≤ most_millimetres },
}

/// Why a millimetre was not added.
#[derive(Clone, Copy, PartialEq, Eq, Debug)]
pub enum TableFault {
    /// There is not enough memory.
    Memory,
    /// The table has 2000 already.
    TooMany,
}

impl Table {
    /// A table with no millimetre yet.
    pub fn new(heap: Global, axis: Axis, screw: u16) -> Table
        ensures axis { result.axis ≡ axis }
        ensures screw { result.screw ≡ screw }
        ensures entries { result.entries.items ≡ [] }
    {
        Table {
            axis,
            screw,
            entries: Vec::new(heap),
        }
    }

    /// Adds the next millimetre; a refusal leaves the table.
    pub fn add(&mut self, entry: Entry) -> Result<(), TableFault>
        ensures axis { self.new.axis ≡ self.old.axis }
        ensures screw { self.new.screw ≡ self.old.screw }
        ensures entries { self.new.entries.items ≡ (if is_ok result then self.old.entries.items ++ entry ∷ [] else self.old.entries.items) }
        ensures cases { MatchResult result (λ _. vec_len self.old.entries < most_millimetres) (λ e. e ≡ (if nat_lt (vec_len self.old.entries) most_millimetres then Memory else TooMany)) }
    {
        if self.entries.len() >= MOST_MILLIMETRES {
            return Err(TableFault::TooMany);
        }
        self.entries.push(entry).map_err(|_| TableFault::Memory)
    }
}

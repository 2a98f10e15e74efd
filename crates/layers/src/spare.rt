// What a spare cell is used for.
ghost use Rattle.std.specs.Prelude.{◌≡◌};
ghost use Rattle.layers.specs.Spared.{retired};

/// The use of one spare: unused, used up, or the place of a cell.
#[derive(Clone, Copy, PartialEq, Eq, Debug)]
pub enum Spare {
    /// The layer has written nothing to it.
    Free,
    /// It was the place of a cell, which has another now.
    Spent,
    /// It is the place of this cell.
    Of(usize),
}

impl Spare {
    /// What it is once it is the place of the cell `p` no more: used up, if it was that.
    pub(crate) fn retired(self, p: usize) -> Spare
        ensures { result ≡ retired p self }
    {
        if self == Spare::Of(p) {
            Spare::Spent
        } else {
            self
        }
    }
}

// The marks of a row as text.
ghost use Rattle.std.specs.Prelude.{Some};
ghost use Rattle.std.specs.Fmt.{WritesOnOk};
ghost use Rattle.rules.specs.Places.{place_text, places_text};

use std::fmt;

/// Writes the places of the yes marks of a row, from 1, each after a space.
#[derive(Drop)]
pub struct Places<'a>(pub &'a [bool]);

// Writes a yes mark as a space and its place, and any other not at all.
fn write_mark<W: fmt::Write>(f: &mut fmt::Formatter<W>, place: usize, mark: bool) -> fmt::Result
    ensures { WritesOnOk W.write_str_gives f.old result (place_text (place, mark)) f.new }
{
    if mark {
        write!(f, " {place}")?;
    }
    Ok(())
}

impl<'a> fmt::Display for Places<'a> {
    ghost output = { λ p. Some (places_text p.0.now) };

    fn fmt<W: fmt::Write>(&self, f: &mut fmt::Formatter<W>) -> fmt::Result {
        for (i, mark) in self.0.iter().enumerate() {
            write_mark(f, i + 1, *mark)?;
        }
        Ok(())
    }
}

// A table as the text that `read_table` reads.
ghost use Rattle.std.specs.Prelude.{◌≡◌, ◌++◌, IfOk, Ok, string_bytes, FitsSigned};
ghost use Rattle.std.specs.Int.{w16};
ghost use Rattle.pitch.specs.Block.{parts_of};
ghost use Rattle.pitch_text.specs.Text.{head_lines, line_of, text_of, read_text};

use pitch::table::{Axis, Entry, Table};
use std::alloc::{AllocError, Global};

fn head_lines(heap: Global, axis: Axis, screw: u16) -> Result<String, AllocError>
    ensures { IfOk result (λ s. string_bytes s ≡ head_lines axis screw) }
{
    format!(in heap; "axis {axis}\nscrew {screw}\n")
}

// Appends the line of one millimetre. That its numbers have 16 bits is known here, and not in the loop that calls this.
fn push_line(out: &mut String, entry: Entry) -> Result<(), AllocError>
    ensures bytes { IfOk result (λ _. string_bytes out.new ≡ string_bytes out.old ++ line_of entry) }
    ensures fits { FitsSigned w16 entry.forward × FitsSigned w16 entry.back }
{
    let Entry { forward, back } = entry;
    writeln!(out, "{forward} {back}")
}

/// Writes a table as text. `read_table` reads that text as the same table.
pub fn show(heap: Global, table: &Table) -> Result<String, AllocError>
    ensures text { IfOk result (λ s. string_bytes s ≡ text_of (parts_of table.now)) }
    ensures back { IfOk result (λ s. read_text (string_bytes s) ≡ Ok (parts_of table.now)) }
{
    // Kept: no `Display` of a table. It was tried and proves `text`, but not `back`, since it does not tell that each number has 16 bits.
    let mut out = head_lines(heap, table.axis, table.screw)?;
    for e in table.entries.iter() {
        push_line(&mut out, *e)?;
    }
    Ok(out)
}

// Filling a row.
ghost use Rattle.std.specs.Prelude.{◌≡◌, ◌<◌, length};
ghost use Rattle.rules.specs.Filling.{single};

// Sets each mark to no, but for the one at place k.
pub(crate) fn only(row: &mut [bool], k: usize)
    requires { k < length row.old }
    ensures { row.new ≡ single (length row.old) k }
{
    row.fill(false);
    row[k] = true;
}

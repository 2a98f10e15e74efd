// Parts of one length that lie one after another in a buffer.
ghost use Rattle.std.specs.Prelude.{◌≡◌, ◌<◌, ◌≤◌, length};
ghost use Rattle.cells.specs.Calls.{padded};
ghost use Rattle.bottoms.specs.Parts.{part_at, whole_parts};

use cells::store::MOST_CELLS;

/// How many whole parts of `n` bytes a buffer of `len` bytes has, as far as a store may have cells.
pub(crate) fn whole_parts(len: usize, n: usize) -> usize
    requires some { 1 ≤ n }
    ensures { result ≡ whole_parts len n }
{
    (len / n).min(MOST_CELLS)
}

/// The part `p`.
// Kept: that the place is there, and that bytes fit, is asked where a part is cut or put; a type that says it would have to hold the buffer.
pub(crate) fn part(buf: &[u8], n: usize, p: usize) -> &[u8]
    requires some { 1 ≤ n }
    requires there { p < whole_parts (length buf.now) n }
    ensures bytes { result.now ≡ part_at n buf.now p }
    ensures whole { length result.now ≡ n }
{
    &buf[p * n..][..n]
}

/// The bytes, and then zeros.
pub(crate) fn padded<const N: usize>(bytes: &[u8]) -> [u8; N]
    requires short { length bytes.now ≤ N }
    ensures { result ≡ padded N bytes.now }
{
    let mut all = [0; N];
    all[..bytes.len()].copy_from_slice(bytes);
    all
}

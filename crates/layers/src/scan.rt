// Looking through the table of spares, and changing it.
ghost use Rattle.std.specs.Prelude.{◌≡◌, ◌+◌, ◌<◌, ◌≤◌, true, false, ◌&&◌, map, length, MatchOption};
ghost use Rattle.cells.specs.Calls.{Written, accepts};
ghost use Rattle.layers.specs.Lowest.{found};
ghost use Rattle.layers.specs.Spared.{is_free, retired, moved_to, accepting, own_spare, next_spare};

use crate::spare::Spare;
use cells::store::Store;

// Which of the spares is the place of the cell `p`.
pub(crate) fn find_own(spares: &[Spare], p: usize) -> Option<usize>
    ensures { result ≡ found (length spares.now) (own_spare (length spares.now) spares.now p) }
{
    spares.iter().position(|spare| *spare == Spare::Of(p))
}

// No spare is the place of the cell `p` any more.
fn retire(spares: &mut [Spare], p: usize)
    ensures { spares.new ≡ map (retired p) spares.old }
{
    for spare in spares.iter_mut() {
        *spare = spare.retired(p);
    }
}

// The spare `j` becomes the place of the cell `p`; the one that was it before is used up.
pub(crate) fn move_to(spares: &mut [Spare], j: usize, p: usize)
    requires { j < length spares.old }
    ensures { spares.new ≡ moved_to spares.old j p }
{
    retire(spares, p);
    spares[j] = Spare::Of(p);
}

// Writes the bytes to one spare, if it is unused and takes them.
// Kept: that the bytes fit is asked here and on the way here; a type that says it would have to hold the store.
fn try_one<S: Store>(below: &mut S, spare: Spare, at: usize, bytes: &[u8]) -> bool
    requires place { at < (S.Store.meaning below.old).count }
    requires short { length bytes.now ≤ (S.Store.meaning below.old).size }
    ensures which { result ≡ (is_free spare && accepts (S.Store.meaning below.old) at bytes.now) }
    ensures took { result ≡ true → Written (S.Store.meaning below.old) at bytes.now (S.Store.meaning below.new) }
    ensures none { result ≡ false → S.Store.meaning below.new ≡ S.Store.meaning below.old }
{
    spare == Spare::Free && below.write(at, bytes).is_ok()
}

// Writes the bytes to the lowest unused spare that takes them, and says which. The spares lie from `base` on.
#[tactic(auto, using(crate::proofs::Tries::next_first, crate::proofs::Tries::next_none))]
pub(crate) fn try_spares<S: Store>(
    below: &mut S,
    spares: &[Spare],
    base: usize,
    bytes: &[u8],
) -> Option<usize>
    requires room { base + length spares.now ≡ (S.Store.meaning below.old).count }
    requires short { length bytes.now ≤ (S.Store.meaning below.old).size }
    ensures which { result ≡ found (length spares.now) (next_spare (length spares.now) base spares.now (accepting (S.Store.meaning below.old) bytes.now)) }
    ensures becomes { MatchOption result (S.Store.meaning below.new ≡ S.Store.meaning below.old) (λ j. Written (S.Store.meaning below.old) (base + j) bytes.now (S.Store.meaning below.new)) }
{
    for (j, spare) in spares.iter().enumerate() {
        if try_one(below, *spare, base + j, bytes) {
            return Some(j);
        }
    }
    None
}

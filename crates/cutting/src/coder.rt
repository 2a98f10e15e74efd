// The coded fragments of a block.
ghost use Rattle.std.specs.Prelude.{◌≡◌, ◌++◌, length, drop, if◌then◌else◌, Ok, Err, nat_le};
ghost use Rattle.coding.specs.Blocks.{coded};
ghost use Rattle.cutting.specs.Cuts.{cut, CutIsBlock, CutIsWhole};
ghost use Rattle.cutting.specs.declared.coder.Short.{Short};

use adding::add_into;

/// The buffer is shorter than a fragment.
#[derive(Clone, Copy, PartialEq, Eq, Debug)]
pub struct Short;

// Makes `part` the sum of the fragments of its length that are marked, summed in place.
#[tactic(auto, using(crate::proofs::Turns::left_no, crate::proofs::Turns::left_yes, crate::proofs::Turns::left_none, crate::proofs::Turns::from_zeros))]
fn sum_marked(part: &mut [u8], block: &[u8], marks: &[bool])
    ensures { part.new ≡ coded (length part.old) marks.now (cut (length marks.now) (length part.old) block.now) }
{
    part.fill(0);
    // Kept: the rest is cut as the marks go on, since `chunks` takes no size of zero, and a part may have no byte.
    let mut rest = block;
    for marked in marks {
        let (fragment, more) = rest.split_at(part.len().min(rest.len()));
        if *marked {
            add_into(part, fragment);
        }
        rest = more;
    }
}

/// Writes the coded fragment under the row `marks` of the block, cut into as many fragments of `size` bytes as the row has marks and
/// filled up with zeros (bytes of the block beyond them do not count), to the first `size` bytes of `out`. The rest of `out` stays; a shorter buffer is refused and left.
// Kept: the size beside the buffer, since a shorter buffer is refused, and the rest of a longer one stays.
pub fn code_into(block: &[u8], size: usize, marks: &[bool], out: &mut [u8]) -> Result<(), Short>
    ensures answer { result ≡ (if nat_le size (length out.old) then Ok tt else Err (record {})) }
    ensures bytes { out.new ≡ (if nat_le size (length out.old) then coded size marks.now (cut (length marks.now) size block.now) ++ drop size out.old else out.old) }
{
    if out.len() < size {
        return Err(Short);
    }
    sum_marked(&mut out[..size], block, marks);
    Ok(())
}

/// A list of bytes cut into fragments is a block, and the fragments put together again are that list and then zeros.
/// Answers how many theorems these are.
pub fn cutting_holds() -> u8
    ensures count { result ≡ 2 }
    ensures block { CutIsBlock }
    ensures whole { CutIsWhole }
{
    2
}

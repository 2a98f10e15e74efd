// How many fragments a block has, and how much filler the last one.
ghost use Rattle.std.specs.Prelude.{◌≡◌};
ghost use Rattle.cutting.specs.Layouts.{layout_of, Exact};

use coding::{LARGEST_FRAGMENT, MOST_FRAGMENTS};

/// A block's number of fragments (NbFrag, M) and the filler bytes at its end (padding).
#[derive(Clone, Copy, PartialEq, Eq, Debug)]
pub struct Layout {
    pub fragments: u16,
    pub padding: u8,
}

/// The layout of a block of `length` bytes in fragments of `size` bytes. None where the size is not 1–239, where the block has no byte, and
/// where it wants more than 256 fragments.
#[tactic(auto, using(crate::proofs::Rounding::ceil_is))]
pub fn layout_of(length: u32, size: u8) -> Option<Layout>
    ensures answer { result ≡ layout_of length size }
    ensures exact { Exact length size result }
{
    if size == 0 || size > LARGEST_FRAGMENT || length == 0 {
        return None;
    }
    let s = u32::from(size);
    let m = length.div_ceil(s);
    if m > u32::from(MOST_FRAGMENTS) {
        return None;
    }
    Some(Layout {
        fragments: m as u16,
        padding: (m * s - length) as u8,
    })
}

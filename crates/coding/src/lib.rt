// Blocks, rows, agreement and elimination as mathematics. Nothing is computed here: a function states theorems in its contract.
#![tactic(auto)]

ghost use Rattle.std.specs.Prelude.{◌≡◌};
ghost use Rattle.coding.specs.Theorems.{Theorems};

/// The most fragments of a block.
pub const MOST_FRAGMENTS: u16 = 256;

/// The most bytes of a fragment.
pub const LARGEST_FRAGMENT: u8 = 239;

/// Coding is linear in the row and in the block. Of a triangular system of lines: reducing by it keeps agreement, some block always agrees
/// with it, and two do where a line is empty. Of lines reached by accepted fragments: they stand for exactly the blocks that agree, the number
/// of empty ones is the least number of further rows, settling gives the one block, and a fragment contradicts exactly when no block agrees.
/// Answers how many theorems these are.
#[tactic(auto, using(crate::proofs::Theorems::theorems))]
pub fn theorems_hold() -> u8
    ensures count { result ≡ 9 }
    ensures theorems { Theorems }
{
    9
}

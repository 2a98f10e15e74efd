// Cutting a block of bytes into fragments, and the coded fragments of a block.
#![tactic(auto)]

pub mod coder;
pub mod layout;

// The bottoms: stores over a buffer, which is lent to them or their own.
#![tactic(auto)]

pub mod buffer;
pub mod flash;
pub mod memory;
mod parts;

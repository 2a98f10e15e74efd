// Pitch tables: the errors of a lead screw at each millimetre, and the block of bytes that carries them.
#![tactic(auto)]

pub mod pack;
pub mod table;

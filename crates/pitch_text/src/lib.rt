// Pitch tables as text, as a machinist writes them.
#![tactic(auto)]

pub mod show;
pub mod text;
mod words;

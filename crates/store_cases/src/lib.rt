// Tests of stores, in piles of up to two layers, and what lenders of buffers learn.
#![tactic(auto)]

pub mod lenders;
#[cfg(test)]
mod tests;

// Tests of pitch tables, as blocks and as text.
#![tactic(auto)]

#[cfg(test)]
mod tests;

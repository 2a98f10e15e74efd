// Line rules: which row of marks a fragment number has.
#![tactic(auto)]

mod drawing;
pub mod line_rule;
mod marks;
pub mod places;
pub mod published;
pub mod repeat;

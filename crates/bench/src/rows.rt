// What the line rules answer.
use crate::lists::{patterned, spoiled};
use crate::rule::RuleName;
use rules::line_rule::LineRule;
use rules::places::Places;
use std::alloc::{AllocError, Global};

/// A row that is asked for: of which rule and number, and how long the list is.
#[derive(Clone, Copy)]
pub struct RowAsked {
    pub rule: RuleName,
    pub algo: u8,
    pub m: u16,
    pub n: u16,
    pub room: u32,
}

impl RowAsked {
    /// The answer to `row`.
    pub(crate) fn answer(self, heap: Global) -> Result<String, AllocError> {
        let mut marks: Vec<bool> = patterned(heap, self.room as usize)?;
        let filled = self
            .rule
            .fill(self.algo, self.m, self.n, marks.as_mut_slice());
        let marks = marks.as_slice();
        match filled {
            Ok(()) => {
                let length = usize::from(self.m);
                let places = Places(&marks[..length]);
                let end = spoiled(marks, length);
                format!(in heap; "marks{places}{end}")
            }
            Err(fault) => {
                let end = spoiled(marks, 0);
                format!(in heap; "{fault}{end}")
            }
        }
    }
}

/// The answer to `serves`.
pub(crate) fn serves(rule: RuleName, algo: u8, m: u16) -> &'static str {
    if rule.serves(algo, m) { "yes" } else { "no" }
}

// The rule that sends one fragment after another, over and over.
ghost use Rattle.std.specs.Prelude.{◌≡◌, ◌-◌, ◌%◌, ◌≤◌};
ghost use Rattle.rules.specs.Repeats.{repeat_serves, repeat_row};
ghost use Rattle.rules.specs.RuleLaws.{repeat_laws};

use crate::line_rule::{LineRule, RowFault, row_length};
use crate::marks::only;
use coding::MOST_FRAGMENTS;

// The place, from 0, of the fragment that number n repeats.
fn place(m: u16, n: u16) -> u16
    requires { (1 ≤ m) × (1 ≤ n) }
    ensures { result ≡ (n - 1) % m }
{
    (n - 1) % m
}

/// FragAlgo 7, M 1–256: number N marks fragment ((N − 1) mod M) + 1 only.
#[derive(Clone, Copy)]
pub struct Repeat;

impl Repeat {
    /// The FragAlgo that the rule serves.
    pub const ALGO: u8 = 7;
}

impl LineRule for Repeat {
    ghost served = { λ _. repeat_serves };

    ghost row = { λ _. repeat_row };

    ghost laws = { λ _. repeat_laws };

    fn serves(&self, algo: u8, m: u16) -> bool {
        algo == Self::ALGO && (1..=MOST_FRAGMENTS).contains(&m)
    }

    fn fill(&self, algo: u8, m: u16, n: u16, marks: &mut [bool]) -> Result<(), RowFault> {
        let len = row_length(self.serves(algo, m), m, n, marks.len())?;
        only(&mut marks[..len], usize::from(place(m, n)));
        Ok(())
    }
}

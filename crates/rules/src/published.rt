// The published rule of TS004: the first M numbers mark one fragment each, and the others what a shift register draws.
ghost use Rattle.std.specs.Prelude.{◌≡◌};
ghost use Rattle.rules.specs.Draws.{published_serves, published_row};
ghost use Rattle.rules.specs.Bound.{Bounded};
ghost use Rattle.rules.specs.RuleLaws.{published_laws};

use crate::drawing::draw;
use crate::line_rule::{LineRule, RowFault, row_length};
use crate::marks::only;
use coding::MOST_FRAGMENTS;

/// FragAlgo 0, M 4–256: one fragment each for the first M numbers, then rows that a shift register draws.
#[derive(Clone, Copy)]
pub struct Published;

impl Published {
    /// The FragAlgo that the rule serves.
    pub const ALGO: u8 = 0;
}

impl LineRule for Published {
    ghost served = { λ _. published_serves };

    ghost row = { λ _. published_row };

    ghost laws = { λ _. published_laws };

    fn serves(&self, algo: u8, m: u16) -> bool {
        algo == Self::ALGO && (4..=MOST_FRAGMENTS).contains(&m)
    }

    fn fill(&self, algo: u8, m: u16, n: u16, marks: &mut [bool]) -> Result<(), RowFault> {
        let len = row_length(self.serves(algo, m), m, n, marks.len())?;
        if n <= m {
            only(&mut marks[..len], usize::from(n - 1));
        } else {
            draw(m, n, &mut marks[..len]);
        }
        Ok(())
    }
}

/// The bound on how many values fall out in a row in one draw, on which the end of a draw rests. A draw takes the first value that does not.
#[tactic(auto, using(crate::proofs::Runs::bounded))]
pub fn most_rejected() -> u8
    ensures answer { result ≡ 20 }
    ensures bounded { Bounded result }
{
    20
}

// The line rules by their names.
ghost use Rattle.bench.specs.Chosen.{chosen_serves, chosen_row, chosen_laws};

use crate::script::Wrong;
use rules::line_rule::{LineRule, RowFault};
use rules::published::Published;
use rules::repeat::Repeat;
use std::fmt;
use std::str::FromStr;

/// A line rule that a script names.
#[derive(Clone, Copy, PartialEq, Eq, Debug)]
pub enum RuleName {
    Published,
    Repeat,
}

impl RuleName {
    /// The FragAlgo that the rule serves.
    pub(crate) fn algo(self) -> u8 {
        match self {
            RuleName::Published => Published::ALGO,
            RuleName::Repeat => Repeat::ALGO,
        }
    }
}

impl FromStr for RuleName {
    type Err = Wrong;

    fn from_str(text: &str) -> Result<RuleName, Wrong> {
        match text {
            "published" => Ok(RuleName::Published),
            "repeat" => Ok(RuleName::Repeat),
            _ => Err(Wrong),
        }
    }
}

impl fmt::Display for RuleName {
    fn fmt<W: fmt::Write>(&self, f: &mut fmt::Formatter<W>) -> fmt::Result {
        match self {
            RuleName::Published => write!(f, "published"),
            RuleName::Repeat => write!(f, "repeat"),
        }
    }
}

impl LineRule for RuleName {
    ghost served = { chosen_serves };

    ghost row = { chosen_row };

    ghost laws = { chosen_laws };

    fn serves(&self, algo: u8, m: u16) -> bool {
        match self {
            RuleName::Published => Published.serves(algo, m),
            RuleName::Repeat => Repeat.serves(algo, m),
        }
    }

    fn fill(&self, algo: u8, m: u16, n: u16, marks: &mut [bool]) -> Result<(), RowFault> {
        match self {
            RuleName::Published => Published.fill(algo, m, n, marks),
            RuleName::Repeat => Repeat.fill(algo, m, n, marks),
        }
    }
}

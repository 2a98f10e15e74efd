// The commands of a bench script.
use crate::rows::RowAsked;
use crate::rule::RuleName;
use crate::script::{Keys, Line, Wrong, block, bytes, number, size};
use crate::stores::Plan;
use std::alloc::Global;

/// One command.
#[derive(Drop)]
pub enum Command {
    Serves { rule: RuleName, algo: u8, m: u16 },
    Row(RowAsked),
    Load(Vec<u8>),
    Store(Plan),
    Read { p: usize, n: usize },
    Write { p: usize, bytes: Vec<u8> },
    Receiver { rule: RuleName, store: Option<Plan> },
    State,
    End,
}

fn serves(rule: &str, algo: &str, m: &str) -> Result<Command, Wrong> {
    Ok(Command::Serves {
        rule: rule.parse()?,
        algo: number(algo)?,
        m: number(m)?,
    })
}

fn row(rule: &str, m: &str, n: &str, keys: &mut Keys<'_>) -> Result<Command, Wrong> {
    let rule: RuleName = rule.parse()?;
    let m: u16 = number(m)?;
    let algo = keys.take("algo", number)?;
    let room = keys.take("room", number)?;
    Ok(Command::Row(RowAsked {
        rule,
        algo: algo.unwrap_or(rule.algo()),
        m,
        n: number(n)?,
        room: room.unwrap_or(u32::from(m)),
    }))
}

fn read(p: &str, n: &str) -> Result<Command, Wrong> {
    Ok(Command::Read {
        p: size(p)?,
        n: size(n)?,
    })
}

fn write(heap: Global, p: &str, text: &str) -> Result<Command, Wrong> {
    Ok(Command::Write {
        p: size(p)?,
        bytes: bytes(heap, text)?,
    })
}

// The model number has no use yet, but a wrong one is wrong already.
fn receiver(heap: Global, keys: &mut Keys<'_>) -> Result<Command, Wrong> {
    keys.take("model", number::<u16>)?;
    let rule = keys.take("rule", str::parse)?;
    let store = keys.text("store");
    keys.none_left()?;
    Ok(Command::Receiver {
        rule: rule.unwrap_or(RuleName::Published),
        store: store.map(|text| Plan::read(heap, text)).transpose()?,
    })
}

// A receiver without sessions answers alike whatever the index is.
fn state(index: &str) -> Result<Command, Wrong> {
    number::<u8>(index)?;
    Ok(Command::State)
}

// The command that the words of a line without keys make.
fn keyless(heap: Global, words: &[&str]) -> Result<Command, Wrong> {
    match words {
        ["serves", rule, algo, m] => serves(rule, algo, m),
        ["load", text] => Ok(Command::Load(block(heap, text)?)),
        ["store", text] => Ok(Command::Store(Plan::read(heap, text)?)),
        ["read", p, n] => read(p, n),
        ["write", p, text] => write(heap, p, text),
        ["state", index] => state(index),
        ["end"] => Ok(Command::End),
        _ => Err(Wrong),
    }
}

// The command that the words make. It takes the keys that it knows; where it knows none, they are refused before anything is made of the words.
fn command_of(heap: Global, words: &[&str], keys: &mut Keys<'_>) -> Result<Command, Wrong> {
    match words {
        ["row", rule, m, n] => row(rule, m, n, keys),
        ["receiver"] => receiver(heap, keys),
        _ => {
            keys.none_left()?;
            keyless(heap, words)
        }
    }
}

impl Command {
    /// The command on a line, or none where the line is empty.
    pub(crate) fn read(heap: Global, text: &str) -> Result<Option<Command>, Wrong> {
        let Line { words, mut keys } = Line::split(heap, text)?;
        let command = match words.as_slice() {
            [] => None,
            words => Some(command_of(heap, words, &mut keys)?),
        };
        keys.none_left()?;
        Ok(command)
    }
}

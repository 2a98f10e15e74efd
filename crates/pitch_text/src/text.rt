// Pitch tables as text: `axis X`, `screw 17`, then a line for each millimetre with the forward and the return error in micrometres.
ghost use Rattle.std.specs.Prelude.{◌≡◌, ℕ, length, Some};
ghost use Rattle.pitch_text.specs.Words.{lines_of, numeral, signed_in};
ghost use Rattle.pitch_text.specs.Text.{message_of, what_of, fault_text, axis_statement, screw_statement, errors_statement, pair_statement, statement_in, sofar_of, line_taken, Takes, at_end, read_text, Reads};

use crate::words::{next_word, number, signed, without_feed};
use pitch::table::{Axis, Entry, Table, TableFault};
use std::alloc::Global;
use std::fmt;

/// What is wrong with a line.
#[derive(Clone, Copy, PartialEq, Eq, Debug)]
pub enum What {
    /// There is not enough memory.
    Memory,
    /// The axis is not X, Y or Z.
    Axis,
    /// The screw's number is not 0 to 65535.
    Screw,
    /// The line has one word, or more than two.
    Words,
    /// The line has neither an axis, a screw nor two errors from -32768 to 32767.
    Number,
    /// There are more than 2000 millimetres.
    TooMany,
    /// An error stands before the axis and the screw.
    Early,
    /// The axis or the screw stands a second time.
    Twice,
    /// The text ends without an axis or a screw.
    Missing,
}

/// What is wrong with a text, and in which line.
#[derive(Clone, Copy, PartialEq, Eq, Debug)]
pub struct TextFault {
    /// The line, from 1, or 0 in an empty text.
    pub line: usize,
    /// What is wrong with it.
    pub what: What,
}

impl fmt::Display for What {
    ghost output = { λ what. Some (message_of what) };

    fn fmt<W: fmt::Write>(&self, f: &mut fmt::Formatter<W>) -> fmt::Result {
        f.write_str(match self {
            What::Memory => "no memory",
            What::Axis => "the axis is not X, Y or Z",
            What::Screw => "the number of the screw is not 0 to 65535",
            What::Words => "not two words",
            What::Number => "neither an axis, a screw nor two errors from -32768 to 32767",
            What::TooMany => "more than 2000 millimetres",
            What::Early => "errors before the axis and the screw",
            What::Twice => "the axis or the screw for the second time",
            What::Missing => "the text ends without an axis or a screw",
        })
    }
}

impl From<TableFault> for What {
    ghost from_gives = { λ fault what. what ≡ what_of fault };

    fn from(fault: TableFault) -> What {
        match fault {
            TableFault::Memory => What::Memory,
            TableFault::TooMany => What::TooMany,
        }
    }
}

impl fmt::Display for TextFault {
    ghost output = { λ f. Some (fault_text f) };

    fn fmt<W: fmt::Write>(&self, f: &mut fmt::Formatter<W>) -> fmt::Result {
        let line = self.line;
        let what = self.what;
        write!(f, "line {line}: {what}")
    }
}

// What one line says.
#[derive(Clone, Copy)]
enum Statement {
    Named(Axis),
    Numbered(u16),
    Errors(Entry),
}

// What is known so far.
#[derive(Drop)]
enum Reading {
    Start,
    HasAxis(Axis),
    HasScrew(u16),
    Ready(Table),
}

// Kept: a match and no conversion of `Axis`, which would want an error of its own where `What` is not known.
fn axis_statement(word: &[u8]) -> Result<Statement, What>
    ensures { result ≡ axis_statement word.now }
{
    match word {
        b"X" => Ok(Statement::Named(Axis::X)),
        b"Y" => Ok(Statement::Named(Axis::Y)),
        b"Z" => Ok(Statement::Named(Axis::Z)),
        _ => Err(What::Axis),
    }
}

fn screw_statement(word: &[u8]) -> Result<Statement, What>
    ensures { result ≡ screw_statement (numeral 65535 word.now) }
{
    number(word, 65535)
        .map(Statement::Numbered)
        .ok_or(What::Screw)
}

fn errors_statement(first: &[u8], second: &[u8]) -> Result<Statement, What>
    ensures { result ≡ errors_statement (signed_in first.now) (signed_in second.now) }
{
    let forward = signed(first).ok_or(What::Number)?;
    let back = signed(second).ok_or(What::Number)?;
    Ok(Statement::Errors(Entry { forward, back }))
}

// What a line of two words says.
fn pair_statement(first: &[u8], second: &[u8]) -> Result<Statement, What>
    ensures { result ≡ pair_statement first.now second.now }
{
    match first {
        b"axis" => axis_statement(second),
        b"screw" => screw_statement(second),
        _ => errors_statement(first, second),
    }
}

// What a line says, up to a `#`; a line without a word says nothing.
fn statement_in(line: &[u8]) -> Result<Option<Statement>, What>
    ensures { result ≡ statement_in line.now }
{
    let Some((first, rest)) = next_word(line) else {
        return Ok(None);
    };
    let (second, rest) = next_word(rest).ok_or(What::Words)?;
    match next_word(rest) {
        None => pair_statement(first, second).map(Some),
        Some(_) => Err(What::Words),
    }
}

impl Reading {
    // Reads one more line.
    fn take(self, heap: Global, line: &[u8]) -> Result<Reading, What>
        ensures { Takes result (line_taken (statement_in line.now) (sofar_of self)) }
    {
        let Some(statement) = statement_in(line)? else {
            return Ok(self);
        };
        match (self, statement) {
            (Reading::Start, Statement::Named(axis)) => Ok(Reading::HasAxis(axis)),
            (Reading::Start, Statement::Numbered(screw)) => Ok(Reading::HasScrew(screw)),
            (Reading::HasScrew(screw), Statement::Named(axis))
            | (Reading::HasAxis(axis), Statement::Numbered(screw)) => {
                Ok(Reading::Ready(Table::new(heap, axis, screw)))
            }
            (Reading::Ready(mut table), Statement::Errors(entry)) => {
                table.add(entry)?;
                Ok(Reading::Ready(table))
            }
            (_, Statement::Errors(_)) => Err(What::Early),
            _ => Err(What::Twice),
        }
    }
}

// The table, once the text has ended after `line` lines.
fn table_of(reading: Reading, line: usize) -> Result<Table, TextFault>
    ensures { (count : ℕ) → Reads count result (at_end line (sofar_of reading)) }
{
    let Reading::Ready(table) = reading else {
        return Err(TextFault {
            line,
            what: What::Missing,
        });
    };
    Ok(table)
}

/// Reads a table from text, or says the first fault and its line. The text that `show` writes of a table is read as that table.
pub fn read_table(heap: Global, text: &[u8]) -> Result<Table, TextFault>
    ensures { Reads (length (lines_of text.now)) result (read_text text.now) }
{
    let mut reading = Reading::Start;
    // Kept: counted by hand, since the number of lines is needed after the loop too.
    let mut line = 0;
    for piece in text.split_inclusive(|b| *b == b'\n') {
        line += 1;
        reading = reading
            .take(heap, without_feed(piece))
            .map_err(|what| TextFault { line, what })?;
    }
    table_of(reading, line)
}

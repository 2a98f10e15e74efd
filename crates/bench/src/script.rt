// Lines of a script: words, `key=value` pairs, numbers and bytes.
ghost use Rattle.std.specs.Prelude.{◌*◌, ◌≤◌, length, IfOk, vec_len};

use std::alloc::{AllocError, Global};
use std::collections::BTreeMap;
use std::error::Error;
use std::num::TryFromIntError;

// The longest buffer or ramp of a script.
const LONGEST_BUFFER: usize = 1048576;

// The keys that some command takes.
const KEYS: [&str; 5] = ["algo", "model", "room", "rule", "store"];

/// A line that is no command, or one for which there is not enough memory. Either is answered `error`, so no more is told.
#[derive(Clone, Copy, PartialEq, Eq, Debug)]
pub struct Wrong;

impl<E: Error + Drop> From<E> for Wrong {
    fn from(_e: E) -> Wrong {
        Wrong
    }
}

/// The values of the keys that a line has and no command has taken.
#[derive(Drop)]
pub struct Keys<'a>(BTreeMap<&'a str, &'a str>);

impl<'a> Keys<'a> {
    // A key that no command takes, or that stands already, is refused. So a line has a few keys at most, however long it is.
    fn put(&mut self, key: &'a str, value: &'a str) -> Result<(), Wrong> {
        if !KEYS.contains(&key) {
            return Err(Wrong);
        }
        match self.0.insert(key, value)? {
            None => Ok(()),
            Some(_) => Err(Wrong),
        }
    }

    /// Takes a key out.
    pub(crate) fn text(&mut self, key: &str) -> Option<&'a str> {
        self.0.remove(key)
    }

    /// Takes a key out, and reads its value.
    pub(crate) fn take<T, F: FnOnce(&'a str) -> Result<T, Wrong>>(
        &mut self,
        key: &str,
        read: F,
    ) -> Result<Option<T>, Wrong>
        requires { F.IsAlwaysCallable read }
    {
        self.text(key).map(read).transpose()
    }

    /// Refuses the keys that are left.
    pub(crate) fn none_left(&self) -> Result<(), Wrong> {
        if self.0.is_empty() {
            Ok(())
        } else {
            Err(Wrong)
        }
    }
}

/// The words of a line, and its keys.
#[derive(Drop)]
pub struct Line<'a> {
    pub words: Vec<&'a str>,
    pub keys: Keys<'a>,
}

impl<'a> Line<'a> {
    /// Splits a line at white space.
    pub(crate) fn split(heap: Global, text: &'a str) -> Result<Line<'a>, Wrong> {
        let mut words = Vec::new(heap);
        let mut keys = Keys(BTreeMap::new(heap));
        for word in text.split_whitespace() {
            match word.split_once('=') {
                Some((key, value)) => keys.put(key, value)?,
                None => words.push(word)?,
            }
        }
        Ok(Line { words, keys })
    }
}

/// The line without its comment.
pub(crate) fn uncommented(line: &[u8]) -> &[u8] {
    line.split(|b| *b == b'#').next().unwrap_or(line)
}

/// A number in decimal digits, or in hexadecimal ones after `0x`, as far as its type goes.
pub(crate) fn number<T: TryFrom<u64, Error = TryFromIntError>>(text: &str) -> Result<T, Wrong> {
    let (digits, radix) = text
        .strip_prefix("0x")
        .map_or((text, 10), |rest| (rest, 16));
    // `from_str_radix` would take a sign.
    if digits.starts_with('+') {
        return Err(Wrong);
    }
    Ok(T::try_from(u64::from_str_radix(digits, radix)?)?)
}

/// The length of a buffer or a ramp.
pub(crate) fn length(text: &str) -> Result<usize, Wrong>
    ensures { IfOk result (λ n. n ≤ 1048576) }
{
    let length = number(text)?;
    if length > LONGEST_BUFFER {
        return Err(Wrong);
    }
    Ok(length)
}

/// A number of four bytes, as a place, a count or a length.
pub(crate) fn size(text: &str) -> Result<usize, Wrong>
    ensures { IfOk result (λ n. n ≤ 4294967295) }
{
    Ok(number::<u32>(text)? as usize)
}

/// Bytes of two digits each; `-` is no byte.
pub(crate) fn bytes(heap: Global, text: &str) -> Result<Vec<u8>, Wrong>
    ensures { IfOk result (λ v. 2 * vec_len v ≤ length text.now) }
{
    match text {
        "" => Err(Wrong),
        "-" => Ok(Vec::new(heap)),
        digits => Ok(hex::decode(heap, digits)?),
    }
}

// Byte j of a ramp counts up from the start, and by one more for each 256 bytes before it.
fn ramp(heap: Global, length: usize, start: u8) -> Result<Vec<u8>, AllocError> {
    let byte = |j: usize| {
        let [low, turns, ..] = j.to_le_bytes();
        start.wrapping_add(low).wrapping_add(turns)
    };
    (0..length).map(byte).collect(heap)
}

/// The block of a `load`: a ramp, or bytes.
pub(crate) fn block(heap: Global, text: &str) -> Result<Vec<u8>, Wrong> {
    let Some(text) = text.strip_prefix("ramp:") else {
        return bytes(heap, text);
    };
    let (count, start) = text.split_once(':').unwrap_or((text, "0"));
    Ok(ramp(heap, length(count)?, number(start)?)?)
}

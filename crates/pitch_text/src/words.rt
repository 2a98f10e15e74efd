// Lines, words and numbers in bytes.
ghost use Rattle.std.specs.Prelude.{◌≡◌, ◌≤◌, ◌∷◌, [], pos, neg_ℤ, IfSome, MatchOption};
ghost use Rattle.pitch_text.specs.Words.{without_feed, blank, ends_word, spoken, digit_after, numeral, signed_in};

// A line without the line feed at its end.
pub(crate) fn without_feed(line: &[u8]) -> &[u8]
    ensures { result.now ≡ without_feed line.now }
{
    match line {
        [bare @ .., b'\n'] => bare,
        _ => line,
    }
}

fn is_blank(b: u8) -> bool
    ensures { result ≡ blank b }
{
    matches!(b, b' ' | b'\t' | b'\r')
}

// Whether a word ends here.
fn ends_word(b: u8) -> bool
    ensures { result ≡ ends_word b }
{
    is_blank(b) || b == b'#'
}

// The first word of a line, and what stands after it; none where only blanks and a comment are left.
// Kept: no `split` at blanks, which has an empty part for each of them, and no cut at the comment beforehand: each took time of its own.
pub(crate) fn next_word(s: &[u8]) -> Option<(&[u8], &[u8])>
    ensures { MatchOption result (spoken s.now ≡ []) (λ r. spoken s.now ≡ r.0.now ∷ spoken r.1.now) }
{
    let start = s.iter().position(|b| !is_blank(*b))?;
    let word = &s[start..];
    let end = word
        .iter()
        .position(|b| ends_word(*b))
        .unwrap_or(word.len());
    if end == 0 {
        return None;
    }
    Some(word.split_at(end))
}

// One more digit after those that make `n`.
fn one_more(n: u16, byte: u8, limit: u16) -> Option<u16>
    ensures value { result ≡ digit_after limit n byte }
    ensures bound { IfSome result (λ m. m ≤ limit) }
{
    if byte < b'0' || byte > b'9' {
        return None;
    }
    let more = u32::from(n) * 10 + u32::from(byte - b'0');
    if more > u32::from(limit) {
        return None;
    }
    Some(more as u16)
}

// A decimal number of at most `limit`.
// Kept: digit by digit and not by the library's `parse`, which with the text that it asks for takes half as much time again.
pub(crate) fn number(word: &[u8], limit: u16) -> Option<u16>
    ensures value { result ≡ numeral limit word.now }
    ensures bound { IfSome result (λ n. n ≤ limit) }
{
    if word.is_empty() {
        return None;
    }
    let mut n = 0;
    for x in word {
        n = one_more(n, *x, limit)?;
    }
    Some(n)
}

fn negated(n: u16) -> i16
    requires { n ≤ 32768 }
    ensures { result ≡ neg_ℤ (pos n) }
{
    -i32::from(n) as i16
}

// A number of 16 bits, with a minus in front where it is below 0.
pub(crate) fn signed(word: &[u8]) -> Option<i16>
    ensures { result ≡ signed_in word.now }
{
    if !word.is_empty() && word[0] == b'-' {
        let n = number(&word[1..], 32768)?;
        return Some(negated(n));
    }
    let n = number(word, 32767)?;
    Some(n as i16)
}

//! Numbers of a font file.
ghost use Rattle.std.specs.Prelude.{◌≡◌, pos, min, option_map};
ghost use Rattle.std.specs.List.{list_all};
ghost use Rattle.run_defs.specs.Numbers.{is_digit, value_of};
ghost use Rattle.bdf_font.specs.Lines.{is_natural, integer_of, integer, are_integers, first_integer, file_words};
ghost use Rattle.bdf_font.specs.Bdf.{extents_of};
ghost use Rattle.bdf_font.specs.Capped.{capped, beyond};

use crate::characters::Extents;
use crate::lines::next_word;

/// Beyond every number: one that is farther from 0 is read as this one.
const BEYOND: u64 = 4_294_967_296;

/// What numbers are at most, but for the codes of characters.
pub(crate) const MOST_NUMBER: i32 = 32_767;

/// A number from -32,768 to `most`: an optional minus sign and digits.
#[tactic(auto, using(crate::proofs::Ranges::ranges), unfolding(crate::specs::Lines::integer))]
pub(crate) fn integer(word: &[u8], most: i32) -> Option<i32>
    ensures { result ≡ integer most word.now }
{
    let n = capped_integer(word)?;
    if n < -32_768 || i64::from(most) < n {
        return None;
    }
    Some(n as i32)
}

/// The number of a word, brought to the nearer end of -2^32 to 2^32 if it is outside.
fn capped_integer(word: &[u8]) -> Option<i64>
    ensures { result ≡ option_map capped (integer_of word.now) }
{
    if is_natural(word) {
        return Some(capped_value(word));
    }
    let [b'-', digits @ ..] = word else {
        return None;
    };
    if !is_natural(digits) {
        return None;
    }
    Some(-capped_value(digits))
}

/// Whether it is one digit or more.
fn is_natural(word: &[u8]) -> bool
    ensures { result ≡ is_natural word.now }
{
    !word.is_empty() && are_digits(word)
}

/// Whether all bytes are digits.
fn are_digits(bytes: &[u8]) -> bool
    ensures { result ≡ list_all is_digit bytes.now }
{
    bytes.iter().all(|b| b.is_ascii_digit())
}

/// What digits come to, or 2^32 if that is more.
fn capped_value(digits: &[u8]) -> i64
    ensures { result ≡ pos (min (value_of digits.now) beyond) }
{
    let mut value: u64 = 0;
    for digit in digits {
        value = (value * 10 + u64::from(digit.saturating_sub(b'0'))).min(BEYOND);
    }
    value as i64
}

/// Whether all these words are numbers.
fn are_integers(words: &[u8], most: i32) -> bool
    ensures { result ≡ are_integers most (file_words words.now) }
{
    let mut rest = words;
    while let Some((word, others)) = next_word(rest) {
        if integer(word, most).is_none() {
            return false;
        }
        rest = others;
    }
    true
}

/// The first of one number or more.
pub(crate) fn first_integer(words: &[u8], most: i32) -> Option<i32>
    ensures { result ≡ first_integer most (file_words words.now) }
{
    let (word, others) = next_word(words)?;
    if !are_integers(others, most) {
        return None;
    }
    integer(word, most)
}

/// Four numbers, and nothing after them.
pub(crate) fn extents(words: &[u8]) -> Option<Extents>
    ensures { result ≡ extents_of (file_words words.now) }
{
    let (w, words) = next_word(words)?;
    let (h, words) = next_word(words)?;
    let (x, words) = next_word(words)?;
    let (y, words) = next_word(words)?;
    if next_word(words).is_some() {
        return None;
    }
    Some(Extents {
        w: integer(w, MOST_NUMBER)?,
        h: integer(h, MOST_NUMBER)?,
        x: integer(x, MOST_NUMBER)?,
        y: integer(y, MOST_NUMBER)?,
    })
}

//! Numbers, colours, codes of characters, and bytes.
ghost use Rattle.std.specs.Prelude.{◌≡◌, ◌≤◌, ◌<◌, ◌≤ℤ◌, ◌<ℤ◌, ◌+ℤ◌, ◌&&◌, int_le, min, pos, neg_ℤ};
ghost use Rattle.std.specs.Prelude.{option_map, IfOk, Some, None, if◌then◌else◌};
ghost use Rattle.std.specs.List.{list_all};
ghost use Rattle.run_defs.specs.Numbers.{is_number, value_of, is_digit, within, number, number_of, natural};
ghost use Rattle.run_defs.specs.Numbers.{color, code_said, bytes_said};
ghost use Rattle.scene_script.specs.Numbers.{capped, beyond};

use gui_base::intervals::{CODE, Count, Interval};
use hex::FromHex;
use run_defs::LineFault;
use scene_defs::RowBytes;

/// Beyond the ends of every interval: a number that is farther from 0 is read as this one.
const BEYOND: u64 = 4_294_967_296;

/// A number from `low` to `high`: syntax if the word is no number, and range if it is outside.
pub(crate) fn number(word: &[u8], low: i32, high: i32) -> Result<i32, LineFault>
    ensures { result ≡ number low high word.now }
{
    let n = within(word, i64::from(low), i64::from(high))?;
    Ok(n as i32)
}

/// A number above `low`, up to `high`.
pub(crate) fn number_above(word: &[u8], low: i32, high: i32) -> Result<i32, LineFault>
    ensures { result ≡ number (low +ℤ pos 1) high word.now }
{
    let n = within(word, i64::from(low) + 1, i64::from(high))?;
    Ok(n as i32)
}

/// A number from `low` to `high`, which are not below 0: syntax if the word is no number, and range if it is
/// outside.
#[tactic(auto, unfolding(run_defs::specs::Numbers::natural, run_defs::specs::Numbers::number))]
pub fn natural(word: &[u8], low: u32, high: u32) -> Result<u32, LineFault>
    ensures value { result ≡ natural low high word.now }
    ensures inside { IfOk result (λ n. (low ≤ n) × (n ≤ high)) }
{
    let n = within(word, i64::from(low), i64::from(high))?;
    Ok(n as u32)
}

/// A number of an interval that has none below 0.
pub(crate) fn count(word: &[u8], interval: Count) -> Result<u16, LineFault>
    ensures { result ≡ natural interval.low interval.high word.now }
{
    let n = natural(word, u32::from(interval.low), u32::from(interval.high))?;
    Ok(n as u16)
}

/// A number of an interval that has none below 0 and none above 255.
pub(crate) fn small(word: &[u8], interval: Count) -> Result<u8, LineFault>
    requires { interval.high < 256 }
    ensures { result ≡ natural interval.low interval.high word.now }
{
    let n = natural(word, u32::from(interval.low), u32::from(interval.high))?;
    Ok(n as u8)
}

/// A number of an interval that has none below -128 and none above 127.
pub(crate) fn offset(word: &[u8], interval: Interval) -> Result<i8, LineFault>
    requires low { neg_ℤ (pos 129) <ℤ interval.low }
    requires high { interval.high <ℤ pos 128 }
    ensures { result ≡ number interval.low interval.high word.now }
{
    let n = within(word, i64::from(interval.low), i64::from(interval.high))?;
    Ok(n as i8)
}

/// A number from `low` to `high`.
#[tactic(auto, using(crate::proofs::NumberLemmas::no_number))]
fn within(word: &[u8], low: i64, high: i64) -> Result<i64, LineFault>
    requires low { neg_ℤ (pos beyond) <ℤ low }
    requires high { high <ℤ pos beyond }
    ensures value { result ≡ within low high (number_of word.now) }
    ensures inside { IfOk result (λ n. (low ≤ℤ n) × (n ≤ℤ high)) }
{
    let Some(n) = capped_number(word) else {
        return Err(LineFault::Syntax);
    };
    if is_between(low, n, high) {
        Ok(n)
    } else {
        Err(LineFault::Range)
    }
}

/// Whether a number lies between two others, or is one of them.
fn is_between(low: i64, n: i64, high: i64) -> bool
    ensures { result ≡ (int_le low n && int_le n high) }
{
    low <= n && n <= high
}

/// The number of a word, brought to the nearer end of -2^32 to 2^32 if it is outside; None if the word is no
/// number.
fn capped_number(word: &[u8]) -> Option<i64>
    ensures { result ≡ option_map capped (number_of word.now) }
{
    if let [b'-', digits @ ..] = word {
        let value = capped_natural(digits)?;
        return if value == 0 { None } else { Some(-value) };
    }
    capped_natural(word)
}

/// What `0`, or digits that begin with 1 to 9, come to, or 2^32 if that is more; None if it is neither.
fn capped_natural(word: &[u8]) -> Option<i64>
    ensures { result ≡ (if is_number word.now then Some (pos (min (value_of word.now) beyond)) else None) }
{
    match word {
        [] => None,
        [first, _, ..] if *first < b'1' => None,
        _ => capped_value(word),
    }
}

/// What digits come to, or 2^32 if that is more; None if a byte is no digit.
fn capped_value(digits: &[u8]) -> Option<i64>
    ensures { result ≡ (if list_all is_digit digits.now
        then Some (pos (min (value_of digits.now) beyond)) else None) }
{
    let mut value: u64 = 0;
    for digit in digits {
        if !digit.is_ascii_digit() {
            return None;
        }
        value = (value * 10 + u64::from(*digit - b'0')).min(BEYOND);
    }
    Some(value as i64)
}

/// A colour, 65536 * red + 256 * green + blue: `#` and two hexadecimal digits of either case for each of the
/// three.
#[tactic(auto, using(crate::proofs::NumberLemmas::three_bytes), unfolding(run_defs::specs::Numbers::color))]
pub(crate) fn color(word: &[u8]) -> Result<i32, LineFault>
    ensures { result ≡ color word.now }
{
    let [b'#', digits @ ..] = word else {
        return Err(LineFault::Syntax);
    };
    let Ok(bytes) = <[u8; 3] as FromHex>::from_hex(digits) else {
        return Err(LineFault::Syntax);
    };
    let number = 65536 * u32::from(bytes[0]) + 256 * u32::from(bytes[1]) + u32::from(bytes[2]);
    Ok(number as i32)
}

/// The code of a character that may have a glyph.
#[tactic(auto, unfolding(run_defs::specs::Numbers::code_said))]
pub(crate) fn code(word: &[u8]) -> Result<char, LineFault>
    ensures { result ≡ code_said word.now }
{
    let n = natural(word, CODE.low as u32, CODE.high as u32)?;
    char::from_u32(n).ok_or(LineFault::Range)
}

/// Bytes: two hexadecimal digits of either case for each, or a dash for none.
#[tactic(auto, unfolding(run_defs::specs::Numbers::bytes_said))]
pub(crate) fn bytes(word: &[u8]) -> Result<RowBytes, LineFault>
    ensures { result ≡ bytes_said word.now }
{
    if word == b"-".as_slice() {
        return Ok(RowBytes::plain(b""));
    }
    if word.is_empty() {
        return Err(LineFault::Syntax);
    }
    RowBytes::hex(word).ok_or(LineFault::Syntax)
}

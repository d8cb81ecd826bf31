//! What a line says.
ghost use Rattle.std.specs.Prelude.{◌≡◌};
ghost use Rattle.std.specs.List.{list_any};
ghost use Rattle.run_defs.specs.Language.{words_of, is_comment, is_control};
ghost use Rattle.run_defs.specs.Script.{parse, line_says, words_say};

use crate::commands::say_command;
use crate::words::{from_first_word, next_word};
use run_defs::{Line, LineFault};

/// The longest line in bytes.
pub(crate) const MAX_LINE: usize = 4096;

/// What a line of the script says, given without its newline and without the carriage return before that. The
/// first of the faults that apply is answered. A line of more than 4,096 bytes is long, also a comment. A line
/// without a form of the language is syntax. A line with a number outside its interval is range.
pub fn parse_line(line: &[u8]) -> Result<Line, LineFault>
    ensures { result ≡ parse line.now }
{
    if line.len() > MAX_LINE {
        return Err(LineFault::Long);
    }
    say_line(line)
}

/// What a line says that is not too long.
#[tactic(auto, unfolding(run_defs::specs::Script::line_says))]
#[inline(always)]
fn say_line(line: &[u8]) -> Result<Line, LineFault>
    ensures { result ≡ line_says line.now }
{
    if is_comment(line) {
        return Ok(Line::Blank);
    }
    if has_control(line) {
        return Err(LineFault::Syntax);
    }
    say_words(line)
}

/// What the words of these bytes say.
#[inline(always)]
fn say_words(bytes: &[u8]) -> Result<Line, LineFault>
    ensures { result ≡ words_say (words_of bytes.now) }
{
    match next_word(bytes) {
        None => Ok(Line::Blank),
        Some((name, words)) => say_command(name, words),
    }
}

/// Whether the first byte that is no space is `#`.
fn is_comment(line: &[u8]) -> bool
    ensures { result ≡ is_comment line.now }
{
    matches!(from_first_word(line), [b'#', ..])
}

/// Whether there is a control character. Eight bytes are looked at together.
fn has_control(line: &[u8]) -> bool
    ensures { result ≡ list_any is_control line.now }
{
    let mut rest = line;
    while let [a, b, c, d, e, f, g, h, others @ ..] = rest {
        let low = is_control(*a) | is_control(*b) | is_control(*c) | is_control(*d);
        if low | is_control(*e) | is_control(*f) | is_control(*g) | is_control(*h) {
            return true;
        }
        rest = others;
    }
    any_control(rest)
}

/// Whether one of a few bytes is a control character.
fn any_control(bytes: &[u8]) -> bool
    ensures { result ≡ list_any is_control bytes.now }
{
    bytes.iter().any(|b| *b < b' ')
}

/// Whether a byte is a control character.
fn is_control(b: u8) -> bool
    ensures { result ≡ is_control b }
{
    b < b' '
}

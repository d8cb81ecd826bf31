//! Values of JSON as words of a line.
ghost use Rattle.line_texts.specs.LineTexts.{is_letter, is_plain};
ghost use Rattle.scene_json.specs.Words.{number_word, string_word, extent_word, is_share, font_word, is_zero};
ghost use Rattle.scene_json.specs.Words.{is_font, is_string_prop, value_word};
ghost use Rattle.serde_json.specs.View.{view};
ghost use Rattle.std.specs.List.{list_all};
ghost use Rattle.std.specs.Prelude.{◌≡◌, option_map};

use gui_base::props::Prop;
use itoa::Buffer;
use serde_json::Value;

/// A number as a word.
pub(crate) fn number_word<'a>(value: &Value, buffer: &'a mut Buffer) -> Option<&'a [u8]>
    ensures { option_map (λ w. w.now) result ≡ number_word (view value.now) }
{
    let n = value.as_i64()?;
    Some(buffer.format(n).as_bytes())
}

/// A string that is a word.
pub(crate) fn string_word(value: &Value) -> Option<&[u8]>
    ensures { option_map (λ w. w.now) result ≡ string_word (view value.now) }
{
    let word = value.as_str()?.as_bytes();
    if is_plain(word) { Some(word) } else { None }
}

/// A width or a height as a word.
pub(crate) fn extent_word<'a>(value: &'a Value, buffer: &'a mut Buffer) -> Option<&'a [u8]>
    ensures { option_map (λ w. w.now) result ≡ extent_word (view value.now) }
{
    if let Some(word) = number_word(value, buffer) {
        return Some(word);
    }
    let word = string_word(value)?;
    if is_share(word) { Some(word) } else { None }
}

/// The value of a property as a word.
pub(crate) fn value_word<'a>(
    prop: Prop,
    value: &'a Value,
    buffer: &'a mut Buffer,
) -> Option<&'a [u8]>
    ensures { option_map (λ w. w.now) result ≡ value_word prop (view value.now) }
{
    if is_string_prop(prop) {
        string_word(value)
    } else if is_font(prop) {
        font_word(value, buffer)
    } else {
        number_word(value, buffer)
    }
}

/// The number of the built-in font as a word.
fn font_word<'a>(value: &Value, buffer: &'a mut Buffer) -> Option<&'a [u8]>
    ensures { option_map (λ w. w.now) result ≡ font_word (view value.now) }
{
    let word = number_word(value, buffer)?;
    if is_zero(word) { Some(word) } else { None }
}

/// Whether the values are strings: colours, and how texts are aligned.
fn is_string_prop(prop: Prop) -> bool
    ensures { result ≡ is_string_prop prop }
{
    matches!(
        prop,
        Prop::BgColor | Prop::BorderColor | Prop::ImgRecolor | Prop::TextColor | Prop::TextAlign
    )
}

fn is_font(prop: Prop) -> bool
    ensures { result ≡ is_font prop }
{
    matches!(prop, Prop::TextFont)
}

fn is_zero(word: &[u8]) -> bool
    ensures { result ≡ is_zero word.now }
{
    word == b"0".as_slice()
}

/// Whether it is `content`, or ends with a percent sign.
fn is_share(word: &[u8]) -> bool
    ensures { result ≡ is_share word.now }
{
    word == b"content".as_slice() || matches!(word, [.., b'%'])
}

/// Whether it is one word of a line, and does not begin as a text does.
fn is_plain(word: &[u8]) -> bool
    ensures { result ≡ is_plain word.now }
{
    match word {
        [] => false,
        [first, ..] => *first != b'"' && are_letters(word),
    }
}

/// Whether there is neither a space nor a control character.
fn are_letters(word: &[u8]) -> bool
    ensures { result ≡ list_all is_letter word.now }
{
    word.iter().all(|b| *b > b' ')
}

//! The text of a label or a checkbox.
ghost use Rattle.std.specs.Prelude.{◌≡◌, ◌≤◌, ◌<◌, true, false, length, option_map, Some, None};
ghost use Rattle.std.specs.Prelude.{IfSome, IfNone};
ghost use Rattle.std.specs.Str.{is_utf8};
ghost use Rattle.scene_defs.specs.Quoted.{unescaped, put_first, that_fits, text_in_quotes};
ghost use Rattle.scene_defs.specs.Texts.{most_text, is_text};

use std::marker::Model;

/// The most bytes of a text of an object.
pub const MOST_TEXT: usize = 1000;

/// The most bytes between the quotes of a line.
const MOST_QUOTED: usize = 4096;

/// How a text is kept: as it is, or as it stands between quotes.
#[derive(Clone, Copy)]
enum Form<'a> {
    Plain(&'a str),
    Quoted(&'a [u8]),
}

/// A text in UTF-8: as it is, or as a line quotes it.
#[derive(Drop)]
pub struct Text<'a> {
    form: Form<'a>,
    // How many bytes it has.
    len: usize,
}

impl<'a> Model for Text<'a> {
    ghost use Rattle.std.specs.Prelude.{◌≡◌, List, ℕ, length};
    ghost use Rattle.scene_defs.specs.Quoted.{text_in, IsForm};

    ghost Value = { List ℕ };

    ghost view = { λ t. text_in t.form };

    ghost invariant = { λ t. (t.len ≡ length (text_in t.form)) × IsForm t.form };
}

impl<'a> Text<'a> {
    /// This text.
    pub fn plain(text: &'a str) -> Text<'a>
        ensures value { result ≡ text.now }
        ensures utf8 { is_utf8 result ≡ true }
    {
        Text {
            form: Form::Plain(text),
            len: text.len(),
        }
    }

    /// The text that stands between quotes. A backslash before a quote or a backslash stands for that sign, and
    /// one before an `n` for a newline. `None` if there is another backslash or quote, if it is not UTF-8, or
    /// if it is longer than a line can be.
    pub fn quoted(inside: &'a [u8]) -> Option<Text<'a>>
        ensures { result ≡ text_in_quotes inside.now }
    {
        if inside.len() > MOST_QUOTED {
            return None;
        }
        let mut room = [0; MOST_QUOTED];
        let text = unescape(inside, &mut room)?;
        if std::str::from_utf8(text).is_err() {
            return None;
        }
        Some(Text {
            form: Form::Quoted(inside),
            len: text.len(),
        })
    }

    /// How many bytes it has.
    pub fn len(&self) -> usize
        ensures { result ≡ length self.now }
    {
        self.len
    }

    /// Whether an object may have it: whether it has at most 1,000 bytes.
    pub fn fits(&self) -> bool
        ensures { result ≡ is_text self.now }
    {
        self.len <= MOST_TEXT
    }

    /// Its bytes. Those that stand between quotes are written into `room`.
    pub fn read<'r>(&'r self, room: &'r mut [u8; MOST_TEXT]) -> &'r [u8]
        requires { length self.now ≤ most_text }
        ensures { result.now ≡ self.now }
    {
        match self.form {
            Form::Plain(text) => text.as_bytes(),
            Form::Quoted(inside) => unescape(inside, room).unwrap_or(b""),
        }
    }
}

/// Writes what stands between quotes into `room`, and answers what it wrote. `None` if nothing can stand so, or
/// if there is too little room.
fn unescape<'r>(inside: &[u8], room: &'r mut [u8]) -> Option<&'r [u8]>
    ensures { option_map (λ text. text.now) result
        ≡ that_fits (length room.old) (unescaped false inside.now) }
{
    let mut rest = inside;
    let mut len = 0;
    while !rest.is_empty() {
        let (byte, others) = first_byte(rest)?;
        if len == room.len() {
            return None;
        }
        room[len] = byte;
        len += 1;
        rest = others;
    }
    Some(&room[..len])
}

/// The first byte that these bytes between quotes say, and the bytes after it. `None` if they begin with
/// another backslash or with a quote.
fn first_byte(bytes: &[u8]) -> Option<(u8, &[u8])>
    requires { 0 < length bytes.now }
    ensures none { IfNone result (unescaped false bytes.now ≡ None) }
    ensures some { IfSome result
        (λ t. unescaped false bytes.now ≡ put_first (Some t.0) (unescaped false t.1.now)) }
    ensures fewer { IfSome result (λ t. length t.1.now < length bytes.now) }
{
    match bytes {
        [b'\\', b'n', rest @ ..] => Some((b'\n', rest)),
        [b'\\', b @ (b'"' | b'\\'), rest @ ..] => Some((*b, rest)),
        [] | [b'\\' | b'"', ..] => None,
        [b, rest @ ..] => Some((*b, rest)),
    }
}

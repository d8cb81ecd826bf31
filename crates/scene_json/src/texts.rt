//! Texts as a line quotes them.
ghost use Rattle.line_texts.specs.Quoting.{escaped, inside_quotes, is_in_text, quoted};
ghost use Rattle.std.specs.List.{list_all};
ghost use Rattle.std.specs.Prelude.{◌≡◌, ◌++◌, OnOk, IfOk};

use gui_base::NoMemory;
use line_texts::push;
use std::alloc::Global;

/// Whether all bytes may stand in a text.
pub(crate) fn are_in_text(text: &[u8]) -> bool
    ensures { result ≡ list_all is_in_text text.now }
{
    text.iter().all(|b| *b == b'\n' || *b >= b' ')
}

/// A text between quotes.
pub(crate) fn quoted(alloc: Global, text: &[u8]) -> Result<Vec<u8>, NoMemory>
    ensures { IfOk result (λ word. word.items ≡ quoted text.now) }
{
    let mut word = Vec::new(alloc);
    push(&mut word, b"\"")?;
    push_inside(&mut word, text)?;
    push(&mut word, b"\"")?;
    Ok(word)
}

/// Adds what stands between the quotes.
fn push_inside(word: &mut Vec<u8>, text: &[u8]) -> Result<(), NoMemory>
    ensures { OnOk result (word.new.items ≡ word.old.items ++ inside_quotes text.now) }
{
    for byte in text {
        push_escaped(word, *byte)?;
    }
    Ok(())
}

/// Adds a byte as it stands between quotes.
fn push_escaped(word: &mut Vec<u8>, byte: u8) -> Result<(), NoMemory>
    ensures { OnOk result (word.new.items ≡ word.old.items ++ escaped byte) }
{
    match byte {
        b'"' => push(word, b"\\\""),
        b'\\' => push(word, b"\\\\"),
        b'\n' => push(word, b"\\n"),
        _ => push(word, &[byte]),
    }
}

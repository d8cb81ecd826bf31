//! The text of a line by its words.
ghost use Rattle.line_texts.specs.LineTexts.{line_text};
ghost use Rattle.std.specs.Prelude.{◌≡◌, [], ◌∷◌, IfOk};

use gui_base::NoMemory;
use line_texts::{push, push_word};
use std::alloc::Global;

/// A line of a name and two words.
pub(crate) fn line_of_two(
    alloc: Global,
    name: &[u8],
    a: &[u8],
    b: &[u8],
) -> Result<Vec<u8>, NoMemory>
    ensures { IfOk result (λ line. line.items ≡ line_text name.now (a.now ∷ b.now ∷ [])) }
{
    let mut line = Vec::new(alloc);
    push(&mut line, name)?;
    push_word(&mut line, a)?;
    push_word(&mut line, b)?;
    Ok(line)
}

/// A line of a name and three words.
pub(crate) fn line_of_three(
    alloc: Global,
    name: &[u8],
    a: &[u8],
    b: &[u8],
    c: &[u8],
) -> Result<Vec<u8>, NoMemory>
    ensures { IfOk result (λ line. line.items ≡ line_text name.now (a.now ∷ b.now ∷ c.now ∷ [])) }
{
    let mut line = Vec::new(alloc);
    push(&mut line, name)?;
    push_word(&mut line, a)?;
    push_word(&mut line, b)?;
    push_word(&mut line, c)?;
    Ok(line)
}

/// A line of a name and four words.
pub(crate) fn line_of_four(
    alloc: Global,
    name: &[u8],
    a: &[u8],
    b: &[u8],
    c: &[u8],
    d: &[u8],
) -> Result<Vec<u8>, NoMemory>
    ensures { IfOk result
        (λ line. line.items ≡ line_text name.now (a.now ∷ b.now ∷ c.now ∷ d.now ∷ [])) }
{
    let mut line = line_of_three(alloc, name, a, b, c)?;
    push_word(&mut line, d)?;
    Ok(line)
}

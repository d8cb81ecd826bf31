//! Adds the words of a line to a text.
ghost use Rattle.std.specs.Fmt.{signed_decimal};
ghost use Rattle.std.specs.Prelude.{◌≡◌, ◌++◌, ◌∷◌, OnOk, decimal};

use gui_base::NoMemory;
use itoa::Buffer;

/// Adds bytes.
pub fn push(text: &mut Vec<u8>, bytes: &[u8]) -> Result<(), NoMemory>
    ensures { OnOk result (text.new.items ≡ text.old.items ++ bytes.now) }
{
    match text.extend_from_slice(bytes) {
        Ok(()) => Ok(()),
        Err(_) => Err(NoMemory),
    }
}

/// Adds a word, after a space.
pub fn push_word(text: &mut Vec<u8>, word: &[u8]) -> Result<(), NoMemory>
    ensures { OnOk result (text.new.items ≡ text.old.items ++ 32 ∷ word.now) }
{
    push(text, b" ")?;
    push(text, word)
}

/// Adds a number that is not below 0, after a space.
pub fn push_count(text: &mut Vec<u8>, n: u32) -> Result<(), NoMemory>
    ensures { OnOk result (text.new.items ≡ text.old.items ++ 32 ∷ decimal n) }
{
    let mut buffer = Buffer::new();
    push_word(text, buffer.format(n).as_bytes())
}

/// Adds a number, after a space.
pub fn push_integer(text: &mut Vec<u8>, n: i32) -> Result<(), NoMemory>
    ensures { OnOk result (text.new.items ≡ text.old.items ++ 32 ∷ signed_decimal n) }
{
    let mut buffer = Buffer::new();
    push_word(text, buffer.format(n).as_bytes())
}

//! Texts between quotes.
ghost use Rattle.std.specs.Prelude.{◌≡◌};
ghost use Rattle.run_defs.specs.Texts.{text_said};

use run_defs::LineFault;
use scene_defs::{MOST_TEXT, Text};

/// A text between quotes: syntax if the word is none, and range if it is too long.
#[tactic(auto, unfolding(run_defs::specs::Texts::text_said))]
pub(crate) fn text(word: &[u8]) -> Result<Text, LineFault>
    ensures { result ≡ text_said word.now }
{
    let [b'"', inside @ .., b'"'] = word else {
        return Err(LineFault::Syntax);
    };
    let Some(text) = Text::quoted(inside) else {
        return Err(LineFault::Syntax);
    };
    if text.len() > MOST_TEXT {
        return Err(LineFault::Range);
    }
    Ok(text)
}

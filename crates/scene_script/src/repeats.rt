//! How often an animation is played.
ghost use Rattle.std.specs.Prelude.{◌≡◌};
ghost use Rattle.run_defs.specs.Commands.{repeat_said};

use crate::numbers::count;
use gui_base::intervals::REPEAT;
use run_defs::LineFault;

/// How often an animation is played: a number of times, or `forever`, which is `None`.
#[tactic(auto, unfolding(run_defs::specs::Commands::repeat_said))]
pub(crate) fn repeat(word: &[u8]) -> Result<Option<u16>, LineFault>
    ensures { result ≡ repeat_said word.now }
{
    if word == b"forever".as_slice() {
        return Ok(None);
    }
    Ok(Some(count(word, REPEAT)?))
}

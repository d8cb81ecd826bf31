//! What a word says that an action is for.
ghost use Rattle.std.specs.Prelude.{◌≡◌};
ghost use Rattle.run_defs.specs.Commands.{aim_said};

use crate::numbers::count;
use gui_base::intervals::HANDLE;
use gui_base::{Aim, Handle};
use run_defs::LineFault;

/// What an action is for: `target`, or the number of an object.
#[tactic(auto, unfolding(run_defs::specs::Commands::aim_said))]
pub(crate) fn aim(word: &[u8]) -> Result<Aim, LineFault>
    ensures { result ≡ aim_said word.now }
{
    if word == b"target".as_slice() {
        return Ok(Aim::Target);
    }
    Ok(Aim::Object(Handle(count(word, HANDLE)?)))
}

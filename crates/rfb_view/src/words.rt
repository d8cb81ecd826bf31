//! What the words of the command line ask of a session.
ghost use Rattle.std.specs.Prelude.{◌≡◌, IfOk, map};
ghost use Rattle.std.specs.Option.{option_map};
ghost use Rattle.rfb_view.specs.Words.{numbers_of, settings_of};

use gui_base::{Limits, NoMemory};
use scene_script::{limits_of, natural};
use std::alloc::Global;

/// What a session depends on.
#[derive(Clone, Copy, Debug)]
pub struct Settings {
    /// How many milliseconds pass at each request of a viewer, up to 60,000.
    pub ms: u16,
    /// The limits, which ask for no made script.
    pub limits: Limits,
}

/// What the words ask for, if they ask for a session: first the milliseconds that pass at each request of the
/// viewer, then the limits, with no made script.
#[tactic(auto, using(crate::proofs::Asked::asked))]
pub fn settings_of(alloc: Global, words: &[&str]) -> Result<Option<Settings>, NoMemory>
    ensures { IfOk result (λ settings. option_map numbers_of settings ≡ settings_of (map (λ w. w.now) words.now)) }
{
    let [ms, words @ ..] = words else {
        return Ok(None);
    };
    let Ok(ms) = natural(ms.as_bytes(), 0, 60_000) else {
        return Ok(None);
    };
    let Some(limits) = limits_of(alloc, words)? else {
        return Ok(None);
    };
    match limits.make {
        Some(_) => Ok(None),
        None => Ok(Some(Settings {
            ms: ms as u16,
            limits,
        })),
    }
}

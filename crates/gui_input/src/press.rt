//! A press as time passes.
ghost use Rattle.std.specs.Prelude.{◌≡◌, [], ◌++◌, ◌+◌, ◌<◌, ◌≤◌};
ghost use Rattle.arrayvec.specs.ArrayVec.{array_vec_len};
ghost use Rattle.play_defs.specs.Input.{pressed_at, held_on};

use crate::Tells;
use play_defs::{InputEvent, LONG_AFTER, Press, REPEAT_AFTER};

/// A press that begins.
pub fn begin(now: u64) -> Press
    ensures { result ≡ pressed_at now }
{
    Press {
        since: now,
        long: false,
        told: now,
    }
}

/// Time passes: a press becomes a long one, and is then repeated, which is told after what is told already.
pub fn hold_on(press: &mut Press, now: u64, tells: &mut Tells)
    requires { array_vec_len tells.old < 8 }
    ensures press { press.new ≡ (held_on press.old now).device }
    ensures tells { tells.new.items ≡ tells.old.items ++ (held_on press.old now).tells }
{
    if press.long {
        if now.saturating_sub(press.told) >= REPEAT_AFTER {
            press.told = now;
            tells.push(InputEvent::Repeat);
        }
    } else if now.saturating_sub(press.since) >= LONG_AFTER {
        press.long = true;
        press.told = now;
        tells.push(InputEvent::Long);
    }
}

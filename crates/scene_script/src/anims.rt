//! The commands on animations, each by its fields in order.
ghost use Rattle.std.specs.Prelude.{◌≡◌};
ghost use Rattle.run_defs.specs.Commands.{anim_fields};

use crate::fields::Fields;
use gui_base::intervals::{ANIM_TIME, COORDINATE, TICK};
use play_defs::AnimSpec;
use run_defs::{AnimName, Command};

/// A command on animations.
#[inline(never)]
pub(crate) fn anim_command<'a>(name: AnimName, line: &mut Fields<'a>) -> Command<'a>
    ensures made { result ≡ (anim_fields name line.old).made }
    ensures state { line.new ≡ (anim_fields name line.old).at }
{
    match name {
        AnimName::Anim => Command::Anim(AnimSpec {
            h: line.handle(),
            var: line.var(),
            start: line.number(COORDINATE),
            end: line.number(COORDINATE),
            time: line.count(ANIM_TIME) as u32,
            delay: line.count(TICK) as u32,
            playback: line.count(TICK) as u32,
            repeat: line.repeat(),
            path: line.path(),
        }),
        AnimName::Stop => Command::Stop(line.handle(), line.var()),
    }
}

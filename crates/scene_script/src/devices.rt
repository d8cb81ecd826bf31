//! The commands on input devices, each by its fields in order.
ghost use Rattle.std.specs.Prelude.{◌≡◌};
ghost use Rattle.run_defs.specs.Commands.{device_fields};

use crate::fields::Fields;
use gui_base::events::DOWN_UP;
use gui_base::intervals::{COORDINATE, DEVICE_GROUP, TICK};
use run_defs::{Command, DeviceName};

/// A command on input devices, or the time.
#[inline(never)]
pub(crate) fn device_command<'a>(name: DeviceName, line: &mut Fields<'a>) -> Command<'a>
    ensures made { result ≡ (device_fields name line.old).made }
    ensures state { line.new ≡ (device_fields name line.old).at }
{
    match name {
        DeviceName::Keypad => Command::Keypad(line.small(DEVICE_GROUP)),
        DeviceName::Encoder => Command::Encoder(line.small(DEVICE_GROUP)),
        DeviceName::Touch => Command::Touch(line.number(COORDINATE), line.number(COORDINATE)),
        DeviceName::Release => Command::Release,
        DeviceName::Key => Command::Key(line.key(), line.name(&DOWN_UP, false)),
        DeviceName::Turn => Command::Turn(line.steps()),
        DeviceName::Push => Command::Push(line.name(&DOWN_UP, false)),
        DeviceName::Tick => Command::Tick(line.count(TICK)),
    }
}

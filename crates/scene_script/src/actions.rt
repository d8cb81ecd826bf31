//! The actions of handlers, and the commands on events and on focus groups, each by its fields in order.
ghost use Rattle.std.specs.Prelude.{◌≡◌};
ghost use Rattle.run_defs.specs.Commands.{action_fields, action_read, play_fields};

use crate::fields::Fields;
use gui_base::Action;
use gui_base::intervals::{GROUP, VALUE};
use gui_base::words::{FLAGS, Flag, ON_OFF};
use run_defs::{ActionName, Command, PlayName};

/// An action: its name, and the fields that this one has.
fn action<'a>(line: &mut Fields<'a>) -> Action
    ensures made { result ≡ (action_read line.old).made }
    ensures state { line.new ≡ (action_read line.old).at }
{
    let name = line.action_name();
    named_action(name, line)
}

/// The action of a name.
fn named_action<'a>(name: ActionName, line: &mut Fields<'a>) -> Action
    ensures made { result ≡ (action_fields name line.old).made }
    ensures state { line.new ≡ (action_fields name line.old).at }
{
    match name {
        ActionName::Say => Action::Say,
        ActionName::Delete => Action::Delete(line.aim()),
        ActionName::Load => Action::Load(line.aim()),
        ActionName::Front => Action::Front(line.aim()),
        ActionName::Flag => Action::Flag(
            line.aim(),
            line.name(&FLAGS, Flag::Hidden),
            line.name(&ON_OFF, false),
        ),
        ActionName::State => Action::State(line.aim(), line.state(), line.name(&ON_OFF, false)),
        ActionName::Value => Action::Value(line.aim(), line.number(VALUE)),
        ActionName::Local => {
            let aim = line.aim();
            let selector = line.selector();
            let prop = line.property();
            Action::Local(aim, selector, prop, line.value(prop))
        }
    }
}

/// A command on events or on focus groups.
#[inline(never)]
pub(crate) fn play_command<'a>(name: PlayName, line: &mut Fields<'a>) -> Command<'a>
    ensures made { result ≡ (play_fields name line.old).made }
    ensures state { line.new ≡ (play_fields name line.old).at }
{
    match name {
        PlayName::On => Command::On(line.handle(), line.event(), action(line)),
        PlayName::Off => Command::Off(line.handle(), line.event()),
        PlayName::Send => Command::Send(line.handle(), line.event()),
        PlayName::Group => Command::Group(line.small(GROUP)),
        PlayName::Join => Command::Join(line.small(GROUP), line.handle()),
        PlayName::Leave => Command::Leave(line.handle()),
        PlayName::Focus => Command::Focus(line.handle()),
    }
}

//! The screen of a meter, by typed commands.
ghost use Rattle.std.specs.Prelude.{◌≡◌, ◌<◌, All, Err, IfErr, None, OnOk, Some};
ghost use Rattle.gui_base.specs.Refusing.{result_of};
ghost use Rattle.gui_core.specs.Machines.{machine_of, stage_of};
ghost use Rattle.gui_play.specs.Panels.{CanSend, Refreshes};
ghost use Rattle.gui_base.specs.declared.refusal.Refusal.{Refusal};
ghost use Rattle.meter.specs.declared.fault.Fault.TheVariants as fault;
ghost use Rattle.meter.specs.Commands.{after, after_all, refusal_of, refusal_of_all};
ghost use Rattle.meter.specs.Numbers.{alarms, number_commands, screen_commands};
ghost use Rattle.meter.specs.Ready.{IsReady, StaysReady};
ghost use Rattle.meter.specs.Shown.{Hinders, WritesPicture};
ghost use Rattle.run_defs.specs.Run.{ShowsScene};
ghost use Rattle.run_defs.specs.Step.{IsCommand};

use crate::fault::Fault;
use gui_base::{Align, Handle, Kind, Length, Part, Prop, Refusal, Selector, State, Steps};
use gui_core::{Gui, Refreshed, Reply};
use gui_edge::{Failed, Panel, Unheard};
use itoa::Buffer;
use run_defs::Command;
use scene_defs::{Change, Text};
use std::marker::Brand;
use std::sync::ledger::{Blank, Ledger};

const SCREEN: Handle = Handle(3);

const BAR: Handle = Handle(10);

const DIGITS: Handle = Handle(11);

/// From this number on the bar has the colour of an alarm.
const ALARM: i32 = 80;

const GREEN: i32 = 0x43A047;

const RED: i32 = 0xE53935;

/// The filled part of the bar, and the same during an alarm.
const FILLED: Selector = Selector {
    part: Part::Indicator,
    states: 0,
};

const ALARMED: Selector = Selector {
    part: Part::Indicator,
    states: 1 << 12,
};

/// Gives one command. No handler hears of it, so it writes nothing.
#[tactic(auto, using(crate::proofs::Ready::stays_ready), unfolding(crate::specs::Commands::refusal_of, crate::specs::Commands::after))]
fn give(gui: &mut Gui, command: &Command) -> Result<(), Refusal>
    requires { IsCommand command.now }
    ensures answer { result ≡ result_of (refusal_of (machine_of gui.old) command.now) }
    ensures machine { machine_of gui.new ≡ after (machine_of gui.old) command.now }
    ensures ready { StaysReady gui.old gui.new }
{
    match gui.apply(command, &mut Unheard) {
        Ok(Reply::Ok { .. }) => Ok(()),
        Ok(Reply::Refused(refusal)) => Err(refusal),
        // What is not heard does not fail.
        Err(Failed) => Ok(()),
    }
}

/// Gives these commands in order, up to the first that is refused.
fn give_all(gui: &mut Gui, commands: &[Command]) -> Result<(), Refusal>
    requires { All IsCommand commands.now }
    ensures answer { result ≡ result_of (refusal_of_all (machine_of gui.old) commands.now) }
    ensures machine { machine_of gui.new ≡ after_all (machine_of gui.old) commands.now }
    ensures ready { StaysReady gui.old gui.new }
{
    for command in commands {
        give(gui, command)?;
    }
    Ok(())
}

/// Makes the screen: a bar that is full at 100, its colours, and digits over it. It stops at the first command that
/// is refused.
pub fn make_screen(gui: &mut Gui) -> Result<(), Refusal>
    ensures answer { result ≡ result_of (refusal_of_all (machine_of gui.old) screen_commands) }
    ensures machine { machine_of gui.new ≡ after_all (machine_of gui.old) screen_commands }
    ensures ready { StaysReady gui.old gui.new }
{
    give_all(
        gui,
        &[
            Command::Change(Change::New(BAR, SCREEN, Kind::Bar)),
            Command::Change(Change::Align(BAR, Align::BottomMid, 0, -3)),
            Command::Change(Change::Size(BAR, Length::Pixels(58), Length::Pixels(8))),
            Command::Change(Change::Local(BAR, FILLED, Prop::BgColor, GREEN)),
            Command::Change(Change::Local(BAR, ALARMED, Prop::BgColor, RED)),
            Command::Change(Change::New(DIGITS, SCREEN, Kind::Label)),
            Command::Change(Change::Align(DIGITS, Align::TopMid, 0, 3)),
        ],
    )
}

/// Whether a number is one of an alarm.
fn alarms(number: i32) -> bool
    ensures { result ≡ alarms number }
{
    number >= ALARM
}

/// Brings a number to the screen. One beyond the range of the bar is at its end. It stops at the first command that
/// is refused.
fn set_number(gui: &mut Gui, number: i32) -> Result<(), Refusal>
    ensures answer { result ≡ result_of (refusal_of_all (machine_of gui.old) (number_commands number)) }
    ensures machine { machine_of gui.new ≡ after_all (machine_of gui.old) (number_commands number) }
    ensures ready { StaysReady gui.old gui.new }
{
    let mut buffer = Buffer::new();
    let digits = Text::plain(buffer.format(number));
    give_all(
        gui,
        &[
            Command::Change(Change::Text(DIGITS, digits)),
            Command::Change(Change::Value(BAR, number)),
            Command::Change(Change::State(BAR, State::User1, alarms(number))),
        ],
    )
}

/// Sends what is pending. The count of its steps is for proofs alone.
fn refresh<P: Panel, B: Ledger>(gui: &mut Gui, panel: &mut P, blank: Blank) -> Refreshed
    requires name { blank.name ≡ B.name }
    requires parts { blank.parts ≡ B.parts }
    requires some { 0 < blank.parts }
    requires can { CanSend (stage_of gui.old (P.state panel.old)) (machine_of gui.old).scene }
    ensures machine { machine_of gui.new ≡ machine_of gui.old }
    ensures refreshes { Refreshes (stage_of gui.old (P.state panel.old))
        (stage_of gui.new (P.state panel.new)) (machine_of gui.old).scene result }
{
    let (book, all) = blank.open::<B>();
    let mut steps = Steps::new(book, all);
    gui.refresh(panel, &mut steps)
}

/// Sends what the screen owes the panel, and presents the frame: the panel shows the scene's picture then.
fn show<P: Panel>(gui: &mut Gui, panel: &mut P) -> Result<(), Fault>
    requires { IsReady gui.old (P.state panel.old) }
    ensures machine { machine_of gui.new ≡ machine_of gui.old }
    ensures ready { OnOk result (IsReady gui.new (P.state panel.new)) }
    ensures shows { OnOk result (ShowsScene (P.state panel.new).shows (machine_of gui.old).scene) }
    ensures writes { OnOk result (WritesPicture (P.state panel.old) (P.state panel.new) (machine_of gui.old).scene) }
    ensures hinders { IfErr result (λ fault. Hinders fault (P.state panel.old) (P.state panel.new)) }
{
    match refresh::<P, Brand>(gui, panel, Blank::new(1)) {
        Refreshed::Done => Ok(panel.present()?),
        Refreshed::Fault => Err(Fault::Unsent),
    }
}

/// Brings a number to the screen, and shows it.
pub fn show_number<P: Panel>(gui: &mut Gui, panel: &mut P, number: i32) -> Result<(), Fault>
    requires { IsReady gui.old (P.state panel.old) }
    ensures machine { machine_of gui.new ≡ after_all (machine_of gui.old) (number_commands number) }
    ensures ready { OnOk result (IsReady gui.new (P.state panel.new)) }
    ensures shows { OnOk result (ShowsScene (P.state panel.new).shows (machine_of gui.new).scene) }
    ensures writes { OnOk result (WritesPicture (P.state panel.old) (P.state panel.new) (machine_of gui.new).scene) }
    ensures refused { (refusal : Refusal) → refusal_of_all (machine_of gui.old) (number_commands number) ≡ Some refusal →
        result ≡ Err (fault.Refused refusal) }
    ensures refused_panel { (refusal : Refusal) →
        refusal_of_all (machine_of gui.old) (number_commands number) ≡ Some refusal → panel.new ≡ panel.old }
    ensures hinders { refusal_of_all (machine_of gui.old) (number_commands number) ≡ None →
        IfErr result (λ fault. Hinders fault (P.state panel.old) (P.state panel.new)) }
{
    match set_number(gui, number) {
        Ok(()) => show(gui, panel),
        Err(refusal) => Err(Fault::Refused(refusal)),
    }
}

//! The definitions of a run: what a script says, what its lines make of the machine, and what the log and the
//! frames then are. There is no code here but the words that code and definitions share, and laws.
#![tactic(auto)]

ghost use Rattle.std.specs.Prelude.{◌≡◌};
ghost use Rattle.run_defs.specs.AnimationExamples.{AnimationsAreWorked};
ghost use Rattle.run_defs.specs.DeviceExamples.{DevicesAreWorked};
ghost use Rattle.run_defs.specs.DragExamples.{DragsAreWorked};
ghost use Rattle.run_defs.specs.Examples.{StepsAreWorked};
ghost use Rattle.run_defs.specs.Laws.{ShowsOutcomes, SaysInRange, NoStandIn, FaultStays, ReturnSaysNothing};
ghost use Rattle.run_defs.specs.Laws.{SameWordsSaySame, StepsChangeTheScene, StepsAsk, RefusedStepIsNone};

mod made;
mod names;
mod refusals;

use gui_base::{Action, EventKind, Handle, Key, Refusal, Var};
pub use made::{MadeCommand, MadeLine, made_scripts_are_counted, worked_made_script};
pub use names::{
    ACTIONS, ActionName, AnimName, AssetName, COMMANDS, DeviceName, Name, PlayName, RowName,
    StyleName, TreeName,
};
pub use owed_defs::Pumped;
use play_defs::AnimSpec;
pub use refusals::why;
use scene_defs::Change;
use thiserror::Error;

/// What a line asks of the machine, beside a frame.
#[derive(Drop)]
pub enum Command<'a> {
    /// A change of the scene.
    Change(Change<'a>),
    /// Adds a handler to an object, the last of those that it has.
    On(Handle, EventKind, Action),
    /// Removes an object's handlers of an event.
    Off(Handle, EventKind),
    /// Runs the handlers of an event on its path, from this target on.
    Send(Handle, EventKind),
    /// Makes a focus group with this number.
    Group(u8),
    /// Makes an object the last member of a group.
    Join(u8, Handle),
    /// Takes an object out of its group.
    Leave(Handle),
    /// Gives an object the focus of its group.
    Focus(Handle),
    /// The group of the keypad, 0 for none.
    Keypad(u8),
    /// The group of the encoder, 0 for none.
    Encoder(u8),
    /// The pointer is down at this x and y, in pixels.
    Touch(i32, i32),
    /// The pointer goes up.
    Release,
    /// A key goes down, or up.
    Key(Key, bool),
    /// The encoder turns by so many steps, backwards below 0.
    Turn(i8),
    /// The encoder's button goes down, or up.
    Push(bool),
    /// So many milliseconds pass.
    Tick(u16),
    /// Starts an animation, in place of the one for the same variable of the same object.
    Anim(AnimSpec),
    /// Stops the animation for this variable of an object where it stands.
    Stop(Handle, Var),
}

/// What of an object an input may set, so that value_changed tells of it.
#[derive(Clone, Copy, Debug, PartialEq, Eq)]
pub struct ControlValue {
    /// The value of a bar or a slider, and 0 of any other object.
    pub value: i32,
    /// Whether it is checked.
    pub checked: bool,
}

/// The reply of the machine to a command.
#[derive(Clone, Copy, Debug, PartialEq, Eq)]
pub enum Reply {
    /// It was done. `noted` tells whether an action that an event ran was refused.
    Ok { noted: bool },
    /// It was refused, and nothing changed.
    Refused(Refusal),
}

/// What a line of the script says.
#[derive(Drop)]
pub enum Line<'a> {
    /// Nothing: a blank line or a comment.
    Blank,
    /// A frame is refreshed and presented.
    Frame,
    /// One step is made to bring what is pending to the panel.
    Pump,
    /// A command is carried out.
    Make(Command<'a>),
}

/// Why a line of the script is refused before it is looked at as a command. If several apply, the first is
/// answered.
#[derive(Clone, Copy, Debug, PartialEq, Eq, Error)]
pub enum LineFault {
    /// It has more than 4,096 bytes before its newline.
    #[error("the line is too long")]
    Long,
    /// It has no form of the language.
    #[error("the line has no form of the language")]
    Syntax,
    /// A number is outside its interval, or a text too long.
    #[error("a number of the line is out of its range")]
    Range,
}

impl From<LineFault> for Refusal {
    ghost use Rattle.run_defs.specs.Why.{refusal_of};

    fn from(fault: LineFault) -> Refusal
        ensures { result ≡ refusal_of fault }
    {
        match fault {
            LineFault::Long => Refusal::Long,
            LineFault::Syntax => Refusal::Syntax,
            LineFault::Range => Refusal::Range,
        }
    }
}

/// How a frame line or a pump line ended.
#[derive(Clone, Copy, Debug, PartialEq, Eq)]
pub enum Outcome {
    /// A frame line.
    Frame(FrameEnd),
    /// A pump line.
    Pump(Pumped),
}

/// How a frame line ended.
#[derive(Clone, Copy, Debug, PartialEq, Eq)]
pub enum FrameEnd {
    /// The panel shows the picture, and the frame was presented.
    Done,
    /// A start or a transfer failed, and nothing was presented.
    Fault,
}

/// A log shows the outcomes of its frames and pumps.
#[tactic(auto, using(crate::proofs::Readings::shows_outcomes))]
pub fn log_shows_outcomes()
    ensures { ShowsOutcomes }
{}

/// What a line says has each number in its interval.
#[tactic(auto, using(crate::proofs::Ranges::says_in_range))]
pub fn lines_say_in_range()
    ensures { SaysInRange }
{}

/// A line that is read says what its words say: what stands in for a word at fault is never part of it.
#[tactic(auto, using(crate::proofs::Fields::no_stand_in, crate::proofs::Fields::fault_stays))]
pub fn lines_hold_no_stand_in<T>()
    ensures no_stand_in { NoStandIn T }
    ensures no_fault_before { FaultStays T }
{}

/// A carriage return before a newline says nothing.
#[tactic(auto, using(crate::proofs::SameSaying::return_says_nothing))]
pub fn carriage_returns_say_nothing()
    ensures { ReturnSaysNothing }
{}

/// Lines of the same words say the same.
#[tactic(auto, using(crate::proofs::SameSaying::same_words_say_same))]
pub fn same_words_say_the_same()
    ensures { SameWordsSaySame }
{}

/// A command changes the scene by changes that may be asked for, one after another; one that is refused does
/// nothing.
#[tactic(auto, using(crate::proofs::Steps::step_laws))]
pub fn steps_make_changes()
    ensures scene { StepsChangeTheScene }
    ensures asked { StepsAsk }
    ensures refused { RefusedStepIsNone }
{}

/// Commands on events and groups that were worked out by hand.
pub fn worked_steps()
    ensures { StepsAreWorked }
{}

/// Commands on input devices that were worked out by hand.
pub fn worked_devices()
    ensures { DevicesAreWorked }
{}

/// Drags that were worked out by hand.
pub fn worked_drags()
    ensures { DragsAreWorked }
{}

/// Commands on animations that were worked out by hand.
pub fn worked_animations()
    ensures { AnimationsAreWorked }
{}

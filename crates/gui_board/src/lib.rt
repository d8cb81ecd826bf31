//! The board on which the rules of events, focus and input are played. It says what a change makes of the
//! machine, how events go their way and the focus moves. It also says what becomes pending and what is written
//! into the log.
#![tactic(auto)]

mod board;
mod changes;
mod events;
mod focus;
mod held;
mod hits;
mod inputs;
mod pending;
mod refusals;
mod scribe;

ghost use Rattle.gui_board.specs.Laws.{NothingIsPlayed, PlaysFollow};

pub use board::Board;
pub use held::is_slider;
pub use scribe::Scribe;

/// If nothing is done, nothing is played, and a rule after another is played if each of them is.
pub fn plays_add_up()
    ensures nothing { NothingIsPlayed }
    ensures then { PlaysFollow }
{}

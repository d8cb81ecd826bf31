//! Commands on a board as code: what input devices, time and animations make of the machine, and the step of each
//! command, or its first refusal.
#![tactic(auto)]

mod animating;
mod commands;
mod devices;
mod pointing;
mod reactions;
mod ticks;

pub use commands::apply;
pub use gui_board::{Board, Scribe, plays_add_up};

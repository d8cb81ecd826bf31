//! The script language: from bytes to lines, and from a line to what it says.
#![tactic(auto)]

mod actions;
mod aims;
mod anims;
mod commands;
mod cutter;
mod devices;
mod fields;
mod lengths;
mod limits;
mod made;
mod maker;
mod numbers;
mod parse;
mod pool_names;
pub mod questions;
mod repeats;
mod says;
mod selectors;
mod texts;
mod words;

pub use cutter::{Cut, Cutter};
pub use limits::limits_of;
pub use maker::Maker;
pub use numbers::natural;
pub use parse::parse_line;
pub use questions::{Fact, Question};
pub use run_defs::{Command, Line, LineFault, why};
pub use says::MadeSays;

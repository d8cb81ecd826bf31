//! Animations: the value of one at a time, and those that run.
#![tactic(auto)]

mod anims;
mod running;
mod value;

pub use anims::Anims;
pub use gui_base::{Path, Var};
pub use play_defs::{AnimSpec, AnimValue};
pub use value::value_of;

//! Handlers of events, and focus groups.
#![tactic(auto)]

mod groups;
mod handlers;
mod members;

pub use groups::Groups;
pub use gui_base::{Action, Aim, EventKind};
pub use handlers::Handlers;

//! Does the changes that make a scene on a store, and says at which it stopped.
#![tactic(auto)]

mod check;
pub mod laws;

pub use check::check_scene;

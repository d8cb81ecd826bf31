//! Lines of a script as texts: the text of a line by its words, and laws by which what is printed is read again.
#![tactic(auto)]

mod adding;
pub mod laws;

pub use adding::{push, push_count, push_integer, push_word};

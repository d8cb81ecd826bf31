//! Answers what a host asks of a machine: each question by one line, and nothing changes.
#![tactic(auto)]

mod adding;
mod asking;
mod children;
mod slots;

pub use asking::ask;

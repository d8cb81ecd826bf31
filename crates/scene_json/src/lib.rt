//! Reads a scene in JSON, and writes the lines of a script that make it.
#![tactic(auto)]

pub mod laws;
mod lines;
mod members;
mod nodes;
mod own;
mod properties;
mod run;
mod scene;
mod selectors;
mod texts;
mod values;
mod writer;

pub use run::{JsonStatus, run_json};

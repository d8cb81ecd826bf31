//! Tests of runs for a host, in memory: with each put of the stream failing, and of each question.
#![tactic(auto)]

#[cfg(test)]
mod puts;
#[cfg(test)]
mod questions;
#[cfg(test)]
mod running;

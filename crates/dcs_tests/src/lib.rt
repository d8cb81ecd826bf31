//! Tests of a turned panel over a bus in memory.
#![tactic(auto)]

#[cfg(test)]
mod frames;
#[cfg(test)]
mod rows;
#[cfg(test)]
mod sending;

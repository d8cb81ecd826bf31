//! Tests of lines that are given to the machine: where objects stand then, what they have, and what is hit. What
//! takes memory is opened here too, where memory is ample.
#![tactic(auto)]

#[cfg(test)]
mod opening;
#[cfg(test)]
mod playing;
#[cfg(test)]
mod rows;
#[cfg(test)]
mod settings;

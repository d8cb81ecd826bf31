//! Tests of what a session with a viewer needs beside the machine, over its public calls.
#![tactic(auto)]

#[cfg(test)]
mod hearing;
#[cfg(test)]
mod panel;
#[cfg(test)]
mod pixels;

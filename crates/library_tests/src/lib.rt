//! Tests over the public calls of the crates above the containers. Tests have crates of their own, so that each
//! crate is proved once, and are cheap to prove only if they are few.
#![tactic(auto)]

#[cfg(test)]
mod color;
#[cfg(test)]
mod covers;
#[cfg(test)]
mod edge;

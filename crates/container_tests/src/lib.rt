//! Tests over the public calls of the containers and the tree. Tests have crates of their own, so that each
//! crate is proved once, and are cheap to prove only if they are few.
#![tactic(auto)]

#[cfg(test)]
mod checks;
#[cfg(test)]
mod containers;
#[cfg(test)]
mod pool;
#[cfg(test)]
mod tree;

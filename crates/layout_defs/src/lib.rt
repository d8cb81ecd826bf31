//! The definitions of layout: what one container's flex does, and where the boxes of a forest stand. The only
//! code is the words that code and definitions share, and laws.
#![tactic(auto)]

pub mod laws;

/// The direction in which a flow runs.
#[derive(Clone, Copy, Debug, PartialEq, Eq)]
pub enum Course {
    /// There is no flow.
    Free,
    Across,
    Down,
}

/// The side of its parent's content area that an object keeps to.
#[derive(Clone, Copy, Debug, PartialEq, Eq)]
pub enum Side {
    /// The left or the top one.
    Near,
    Middle,
    /// The right or the bottom one.
    Far,
}

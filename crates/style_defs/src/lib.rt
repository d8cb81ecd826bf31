//! The definition of the cascade: which of the values that are set applies to a part
//! of an object, and which of those wins.
#![tactic(auto)]

pub mod kinds;
pub mod laws;

use gui_base::{Part, Prop, Selector};

/// A property that a shared style sets.
#[derive(Clone, Copy, Debug, Drop)]
pub struct Setting {
    pub prop: Prop,
    /// In the range of the property.
    pub value: i32,
}

/// A property that is set locally, at an object. It takes 8 bytes.
#[derive(Clone, Copy, Debug, Drop)]
pub struct Entry {
    pub part: Part,
    pub prop: Prop,
    /// A bit for each state, as [`gui_base::State::bit`] says.
    pub states: u16,
    /// In the range of the property.
    pub value: i32,
}

/// A shared style that is added to an object.
#[derive(Clone, Copy, Debug, PartialEq, Eq, Drop)]
pub struct Use {
    /// The number of the style.
    pub style: u16,
    pub selector: Selector,
}

/// A value that applies to a part of an object, and the states that it is set for.
#[derive(Clone, Copy, Debug, Drop)]
pub struct Candidate {
    /// A bit for each state, as [`gui_base::State::bit`] says.
    pub states: u16,
    pub value: i32,
}

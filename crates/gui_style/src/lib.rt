//! The shared styles, what is set locally at each object, and which styles each object uses.
//!
//! All memory is taken at [`Styles::open`]. A call that is refused leaves all as it was.
#![tactic(auto)]

pub mod cascade;
mod entries;
pub mod kinds;
mod styles;
mod uses;

pub use gui_base::{Part, Prop, Selector};
pub use styles::Styles;

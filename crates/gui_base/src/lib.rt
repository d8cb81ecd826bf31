//! What all crates share: areas of pixels, colours, limits, refusals, and the counting of steps.
#![tactic(auto)]

pub mod area;
pub mod bits;
pub mod color;
pub mod events;
pub mod intervals;
pub mod laws;
pub mod limits;
pub mod names;
pub mod pools;
pub mod props;
pub mod refusal;
pub mod rounding;
pub mod steps;
pub mod words;

pub use area::Area;
pub use bits::Bits;
pub use color::Rgb565;
pub use events::{Action, Aim, EventKind, Key, Path, Var};
pub use limits::{Limits, Pool};
pub use names::named;
pub use pools::POOLS;
pub use props::Prop;
pub use refusal::Refusal;
pub use rounding::{Block, FullLines, Grid, Round};
pub use steps::Steps;
pub use words::{
    Align, Flag, Flow, Format, Kind, Length, Part, Placing, Selector, State, TextAlign,
};

/// The name of an object. 1 is the top layer, 2 the system layer and 3 the first screen; callers choose from
/// 10 to 9999.
#[derive(Clone, Copy, Debug, PartialEq, Eq)]
pub struct Handle(pub u16);

/// Memory ran out. Only a call with a parameter `alloc` answers it.
#[derive(Clone, Copy, Debug, PartialEq, Eq)]
pub struct NoMemory;

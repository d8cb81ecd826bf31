//! Widgets: what an object of each kind paints, and how large what it shows is by itself.
//!
//! No call takes memory. A widget is given as a [`Look`]: its kind, the values of its parts, and what it
//! shows.
#![tactic(auto)]

mod areas;
mod look;
mod painting;
mod scrollbars;
mod sizes;
mod values;

pub use gui_base::Kind;
pub use look::{Item, Look};
pub use painting::items;
pub use scrollbars::bars;
pub use sizes::{own_height, own_width};
pub use values::value_in;
pub use widget_defs::{ImageLook, ItemPaint, Values};

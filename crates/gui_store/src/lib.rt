//! A scene: the tree of its objects, a row for each, their styles, the fonts and images, and the changes that
//! a script may ask for.
//!
//! All memory is taken at [`Store::open`]. A change is done as a whole or refused; a refusal leaves all as
//! it was.
#![tactic(auto)]

mod assets;
mod features;
mod range;
mod row;
mod row_table;
mod setter;
mod store;
mod styling;
mod subject;

pub use features::has_feature;
pub use gui_base::{Align, Flow, Kind, Length, Part, Placing, Prop};
pub use row_table::RowTable;
pub use scene_defs::{Change, Row, Text};
pub use store::{SYSTEM_LAYER, Store, TOP_LAYER};
pub use subject::subject_of;

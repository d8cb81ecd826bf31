//! All that an object paints, kept in a record of a fixed size: a few areas, and colours and opacities once for
//! each part. The items are made of it again when they are needed.
//!
//! No call takes memory.
#![tactic(auto)]

mod items;
mod moving;
mod packing;
mod record;

pub use pack_defs::{ImagePaint, PartPaint, TextPaint};
pub use packing::paints;
pub use record::{More, Paints};

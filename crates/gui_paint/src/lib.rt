//! What painters share, and a painter that keeps nothing. The product's frames are painted by `gui_view`, which
//! calls this crate for what covers a slice and for how a known object is painted. `Shown` paints any store and
//! its places, back to front, for the sum of a made script and for tests.
#![tactic(auto)]

mod hiding;
mod items;
mod known;
mod paint;
mod search;
mod shown;
mod walk;

pub use hiding::{covers, has_area};
pub use shown::Shown;

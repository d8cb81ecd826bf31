//! One container's flex: items in tracks share what is free, and get their places. Sizes, gaps and places are
//! in pixels, along the flow (main) or across it (cross).
#![tactic(auto)]

mod item;
mod sharing;
mod spreading;
mod track;

pub use gui_base::words::Placing;
pub use item::{FlexItem, FlexPlaces};
pub use sharing::share;
pub use spreading::place;
pub use track::measure;

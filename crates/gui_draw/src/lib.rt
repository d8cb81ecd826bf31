//! Drawing items into a draw buffer: each pixel of an item is one mix, and each mix is a step.
#![tactic(auto)]

mod brush;
mod dots;
mod fills;
mod glyphs;
mod letters;
mod pictures;
mod rings;
mod rows;
mod runs;
mod stamps;
mod texel_rows;
mod texels;
mod texts;
mod ticks;

pub use fills::fill;
pub use pictures::Picture;
pub use rings::ring;
pub use texels::picture;
pub use texts::ink;

//! Fonts, the lines and the ink of texts, and images.
//!
//! All memory is taken at [`Fonts::with_capacity`] and [`Images::with_capacity`]. A call that is refused
//! leaves all as it was.
#![tactic(auto)]

mod fonts;
mod images;
mod ink;
mod letters;
mod lines;

pub use fonts::{Bits, Fonts};
pub use gui_base::words::{Format, TextAlign};
pub use images::{Bitmap, Images, color_at};
pub use letters::first_char;
pub use lines::{Lines, Run};
pub use text_defs::{GlyphBox, Line, Texel, TextLook};

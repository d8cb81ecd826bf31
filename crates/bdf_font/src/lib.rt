//! Reads a font in BDF, and writes the lines of a script that make it.
#![tactic(auto)]

mod characters;
mod codes;
mod font;
mod glyphs;
mod integers;
mod keywords;
pub mod laws;
mod lines;
mod reader;
mod rows;
mod run;
mod text;

pub use characters::{Character, Extents};
pub use keywords::{KEYWORDS, Keyword, Phase};
pub use run::{BdfStatus, run_bdf};

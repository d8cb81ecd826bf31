//! Boxes, and where they stand: what layout knows of objects, and the passes over a tree of them.
//!
//! A table has an entry for each object: its box, what the passes found of it so far, and how far its children are
//! scrolled. Each pass reads what those before it found, and writes one thing more: natural widths upward, widths
//! downward, natural heights upward, heights and places downward. What the boxes come from is not known here.
#![tactic(auto)]

pub mod along;
pub mod axis;
pub mod boxes;
pub mod entry;
pub mod frame;
pub mod framed;
pub mod gone;
pub mod heights;
pub mod inside;
pub mod items;
pub mod layout_box;
pub mod listing;
pub mod mark;
pub mod marks;
pub mod measuring;
pub mod natural;
pub mod pending;
pub mod position;
pub mod positions;
pub mod reach;
pub mod reaching;
pub mod size;
pub mod sizing;
pub mod standing;
pub mod steady;
pub mod tables;
pub mod telling;
pub mod total;
pub mod widths;

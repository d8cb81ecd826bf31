//! The places of the objects of a store, solved by their parents and by what they hold.
//!
//! Each root is solved by itself, in four passes over its tree: natural widths upward, widths downward,
//! natural heights upward, heights and places downward. Between the second and the third each object gets its
//! own height, which goes by its width. A pass goes down by recursion, 16 deep at most, and along siblings by
//! loops. It reads what the passes before it found of each object, and writes one thing more into its entry.
//!
//! Where objects have changed, come or gone, or stand elsewhere among their siblings, they are marked (by
//! [`Marks`]), and the places are settled for all of them at once. Each mark has one
//! tree solved: that of the nearest object, from the marked one upward, that stands by itself in a parent whose
//! place does not go by its children. A tree without marks stays as it is. In a tree the passes visit touched
//! objects alone: the marked ones, those above them, and those whose width or place becomes another.
//!
//! All memory is taken at [`Places::open`] and [`Marks::open`].
#![tactic(auto)]

mod all;
mod around;
mod keeping;
pub mod laws;
mod lone;
mod looks;
mod objects;
mod own_heights;
mod places;
mod raising;
mod renewal;
mod telling;
mod touching;
mod tree;

pub use gui_boxes::marks::Marks;
pub use places::{Places, met};

//! A scene with its places, whose changes list the areas that are to be painted anew.
//!
//! After each change what is shown is looked at again, and compared with what was seen before: where each
//! object is seen, and what it paints. So a change is found to touch an object in one way, whatever it does:
//! the object is the one that the change names, or it is seen elsewhere, or it paints something else.
//!
//! A change marks the objects that it may move, and the trees of these alone are solved: none where layout does
//! not go by what it sets. Where it leaves the trees, only those objects are looked at again that it may
//! concern, and those of the trees that were solved: such a change takes time by their number. So it is where an
//! object comes or a tree goes: what is painted of it is put in or cut out. Another change of the trees has all
//! looked at again that is shown.
//! All memory is taken at [`Canvas::open`].
//!
//! No value is looked up of an object that paints what it painted: where a change does not concern it or sets
//! nothing that it paints by, and it stands where it stood or paints its own part alone.
//!
//! What is known of the objects is lent, in paint order, so that a painter need not look it up.
#![tactic(auto)]

mod after;
mod again;
mod canvas;
mod down;
mod edits;
mod entries;
mod gone;
mod less;
mod more;
mod moved;
mod renew;
mod reorder;
mod replanted;
mod scene_look;
mod seeing;
mod shifted;
mod shown;

pub use canvas::Canvas;

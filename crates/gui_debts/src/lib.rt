//! What is known of the objects that are shown, and what objects owe.
//!
//! The canvas keeps where each shown object is seen and what it paints ([`Seen`]). After a change an object is
//! looked at once more if the change may concern it (`Concerned` of `gui_concerns`). What was seen of it before
//! tells whether it is touched. It is touched if the change names it, if it is seen elsewhere, or if it paints
//! something else. A touched object owes where it was seen and where it is seen now ([`owe`]).
//!
//! No value is looked up of an object that paints what it painted. An object does so if a change does not
//! concern it, or sets nothing that the object's paint depends on. It also stands where it stood, or paints its
//! own part alone ([`see`]).
#![tactic(auto)]

mod bars;
mod debts;
mod kept;
mod same;
mod seen;
mod sighting;

pub use bars::{Bars, are_equal, bars_at};
pub use debts::{is_named, owe};
pub use kept::{KeptBars, ShownBars};
pub use same::same_visible;
pub use seen::{Seen, ShownEntry, see};
pub use sighting::{Nearby, Sighting};

//! Whom a change may concern, and what it does to the trees, as far as the change tells and the trees before and after it.
//!
//! A change may concern some objects ([`concerned_by`]), and no others. It leaves the trees or edits them ([`edit_of`]), and
//! some changes move nobody, whatever the scene ([`moves_nobody`]). The objects that may stand elsewhere after it are
//! marked, so that their trees alone are solved again.
#![tactic(auto)]

mod concerned;
mod edit;
mod marking;
mod moving;
mod named;

pub use concerned::{Concerned, concerned_by};
pub use edit::{Edit, edit_of};
pub use marking::{mark_beside, mark_concerned, mark_gone, mark_new, mark_reparented};
pub use moving::{moves_nobody, painted_by};
pub use named::named_by;

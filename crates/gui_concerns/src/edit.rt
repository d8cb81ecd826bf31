//! What changes do to the trees.
ghost use Rattle.std.specs.Prelude.{◌≡◌};
ghost use Rattle.gui_store.specs.Views.{scene_of};
ghost use Rattle.gui_concerns.specs.Edits.{beside, edit_of};

use debt_defs::Subject;
use gui_base::Handle;
use gui_store::{Store, subject_of};
use scene_defs::Change;

/// What a change does to the trees, as far as places depend on it.
#[derive(Clone, Copy)]
pub enum Edit {
    /// A child of this object goes elsewhere among its siblings.
    Beside(Handle),
    /// A tree with this parent goes, or a root with all below it.
    Gone(Option<Handle>),
    /// This object comes, the last child of the second one.
    New(Handle, Handle),
    /// The tree at this object goes from the second one, if it had a parent, below the third.
    Reparented(Handle, Option<Handle>, Handle),
    /// Nothing changes: the same objects stand in the same trees, and the same trees are shown.
    Same,
    /// Anything else.
    Other,
}

/// A tree with this parent, if it has one, goes elsewhere among its siblings.
fn beside(parent: Option<Handle>) -> Edit
    ensures { result ≡ beside parent }
{
    match parent {
        Some(parent) => Edit::Beside(parent),
        None => Edit::Other,
    }
}

/// What a change does to the trees of a store.
pub fn edit_of(store: &Store, change: &Change) -> Edit
    ensures { result ≡ edit_of (scene_of store.now) change.now }
{
    match subject_of(change) {
        Subject::Among(h) => beside(store.tree().parent(h)),
        Subject::Goes(h) => Edit::Gone(store.tree().parent(h)),
        Subject::Comes(h, parent) => Edit::New(h, parent),
        Subject::Moves(h, parent) => Edit::Reparented(h, store.tree().parent(h), parent),
        Subject::Made(_) | Subject::Loads(_) => Edit::Other,
        Subject::Own(_) | Subject::Spread(_) | Subject::Styled(_, _) => Edit::Same,
        Subject::Shared(_, _) | Subject::Nobody => Edit::Same,
    }
}

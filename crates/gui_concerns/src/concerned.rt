//! Which objects a change concerns, as far as the change and the trees before and after it tell.
ghost use Rattle.std.specs.Prelude.{◌≡◌};
ghost use Rattle.gui_store.specs.Views.{scene_of};
ghost use Rattle.gui_concerns.specs.Concerned.{concerned_by, is_below, is_below_user, is_own, may_be, parent_or_self, Covers};
ghost use Rattle.gui_tree.specs.Handles.{as_handle};

use debt_defs::{Reach, Subject};
use gui_base::Handle;
use gui_store::{Store, subject_of};
use gui_tree::Tree;
use scene_defs::Change;

/// The objects that a change may concern.
#[derive(Clone, Copy)]
pub enum Concerned {
    /// None.
    Nobody,
    /// This one.
    One(Handle),
    /// These two.
    Both(Handle, Handle),
    /// This one and all below it.
    Below(Handle),
    /// This one and all below it, and these two: a tree that goes elsewhere, and its parents before and
    /// after.
    Moved(Handle, Handle, Handle),
    /// All that use this style.
    Users(u16),
    /// All that use this style, and all below them.
    BelowUsers(u16),
    /// Any of them.
    Anybody,
}

/// Whether an object is this one, or lies below it.
fn is_below(store: &Store, h: Handle, k: Handle) -> bool
    ensures { result ≡ is_below (scene_of store.now) h.0 k.0 }
{
    let tree = store.tree();
    for above in tree.ancestors(k) {
        if above.0 == h.0 {
            return true;
        }
    }
    false
}

/// Whether an object, or one above it, uses a style.
fn is_below_user(store: &Store, style: u16, k: Handle) -> bool
    ensures { result ≡ is_below_user (scene_of store.now) style k.0 }
{
    let tree = store.tree();
    for above in tree.ancestors(k) {
        if store.uses_style(above, style) {
            return true;
        }
    }
    false
}

impl Concerned {
    /// Whether an object may be among them, according to the trees after the change.
    pub fn may_be(self, store: &Store, h: Handle) -> bool
        ensures { result ≡ may_be (scene_of store.now) self h.0 }
    {
        match self {
            Concerned::Nobody => false,
            Concerned::One(k) => h.0 == k.0,
            Concerned::Both(k, m) => h.0 == k.0 || h.0 == m.0,
            Concerned::Below(k) => is_below(store, k, h),
            Concerned::Moved(k, m, n) => h.0 == m.0 || h.0 == n.0 || is_below(store, k, h),
            Concerned::Users(style) => store.uses_style(h, style),
            Concerned::BelowUsers(style) => is_below_user(store, style, h),
            Concerned::Anybody => true,
        }
    }
}

/// The parent of an object, or the object itself if it has none.
fn parent_or_self(tree: &Tree, h: Handle) -> Handle
    ensures { result ≡ as_handle (parent_or_self tree.now.forest h.0) }
{
    match tree.parent(h) {
        Some(parent) => parent,
        None => h,
    }
}

/// Whether what styles give to an object is given to it alone.
fn is_own(reach: Reach) -> bool
    ensures { result ≡ is_own reach }
{
    match reach {
        Reach::OfProp(prop) => !prop.inherits(),
        Reach::OfStyle(_) => false,
    }
}

/// The objects that a change may concern, according to the store before it. Of a tree that is deleted none is
/// left: so it concerns the parent alone.
pub fn concerned_by(store: &Store, change: &Change) -> Concerned
    ensures covers { Covers result (scene_of store.now) change.now }
    ensures exact { result ≡ concerned_by (scene_of store.now) change.now }
{
    let tree = store.tree();
    match subject_of(change) {
        Subject::Own(h) | Subject::Made(h) | Subject::Loads(h) => Concerned::One(h),
        Subject::Spread(h) => Concerned::Below(h),
        Subject::Styled(h, reach) if is_own(reach) => Concerned::One(h),
        Subject::Styled(h, _) => Concerned::Below(h),
        Subject::Shared(style, prop) if !prop.inherits() => Concerned::Users(style),
        Subject::Shared(style, _) => Concerned::BelowUsers(style),
        Subject::Comes(n, parent) => Concerned::Both(n, parent),
        Subject::Goes(h) => Concerned::One(parent_or_self(tree, h)),
        Subject::Moves(h, parent) => Concerned::Moved(h, parent_or_self(tree, h), parent),
        Subject::Among(h) => Concerned::Both(h, parent_or_self(tree, h)),
        Subject::Nobody => Concerned::Nobody,
    }
}

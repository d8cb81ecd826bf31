//! An object that is changed alone. Where its siblings reach as far as all did, they are not walked past again.
ghost use Rattle.std.specs.Prelude.{◌≡◌, ℕ, Some, IfSome, [], ◌∷◌, eqb, false, true, max};
ghost use Rattle.gui_base.specs.Forest.{Forest, StandsOnce, children_of, has, parent_of, tree_at};
ghost use Rattle.gui_boxes.specs.Around.{IsFlat, IsFlatWithout, ReadsReaches, SparesOne, out_of};
ghost use Rattle.gui_boxes.specs.Layouts.{ButScrolls};
ghost use Rattle.gui_layout.specs.Marked.{is_root};
ghost use Rattle.gui_boxes.specs.Scrolls.{scrolled_at, span_of};
ghost use Rattle.gui_boxes.specs.Sizings.{kid_by};
ghost use Rattle.gui_boxes.specs.Tables.{AreListed, IsListed, listing_of, told};
ghost use Rattle.gui_layout.specs.Tops.{is_it};

use gui_base::Handle;
use gui_boxes::along::inner;
use gui_boxes::entry::Entry;
use gui_boxes::reach::{AT_REST, Reach, Scrolled};
use gui_boxes::reaching::{farther, inner_corner};
use gui_boxes::tables::{entry_of, set_scrolled};
use gui_pool::Table;
use gui_tree::Tree;

/// How far one child alone reaches out of its parent's content area from where it stands. A hidden one does not
/// count.
fn out_of(own: &Entry, kid: &Entry) -> Reach
    ensures { (h k : ℕ) → span_of result ≡ out_of (kid_by h own.now) (kid_by k kid.now) }
{
    let x = inner_corner(&own.wanted.across, own.position.x);
    let y = inner_corner(&own.wanted.down, own.position.y);
    let wide = inner(&own.wanted.across, own.width.pixels);
    let high = inner(&own.wanted.down, own.position.height);
    let ends = farther(kid, x, y, Reach { across: 0, down: 0 });
    Reach {
        across: ends.across.saturating_sub(wide as u32),
        down: ends.down.saturating_sub(high as u32),
    }
}

/// Whether all reach so far without the one that reaches so far out.
fn is_spared(out: u32, all: u32) -> bool
    ensures { result ≡ true → (others : ℕ) → all ≡ max others out → all ≡ others }
{
    out == 0 || out < all
}

/// Whether an object moves no children, and by what is told they reach as far without this one.
fn spares(own: &Entry, kid: &Entry) -> bool
    ensures still { result ≡ true → own.now.wanted.scrollable ≡ false }
    ensures across { result ≡ true → (h k others : ℕ) →
        own.now.scrolled.reach.across ≡ max others (out_of (kid_by h own.now) (kid_by k kid.now)).across →
        own.now.scrolled.reach.across ≡ others }
    ensures down { result ≡ true → (h k others : ℕ) →
        own.now.scrolled.reach.down ≡ max others (out_of (kid_by h own.now) (kid_by k kid.now)).down →
        own.now.scrolled.reach.down ≡ others }
{
    if own.wanted.scrollable {
        return false;
    }
    let out = out_of(own, kid);
    let told = own.scrolled.reach;
    is_spared(out.across, told.across) && is_spared(out.down, told.down)
}

/// Whether an object moves no children, and by its entry they reach as far without this one.
fn spares_in(entries: &Table<Entry>, parent: Handle, h: Handle) -> bool
    ensures { result ≡ true → (f : Forest ℕ) → SparesOne f (told entries.now) h.0 parent.0 }
{
    let Some(own) = entries.get(parent.0 as u32) else {
        return false;
    };
    let Some(kid) = entries.get(h.0 as u32) else {
        return false;
    };
    spares(own, kid)
}

/// The one object that is marked, where its parent moves no children and these reach as far without it.
pub(crate) fn lone_child(tree: &Tree, entries: &Table<Entry>, marked: &[Handle]) -> Option<Handle>
    ensures alone { IfSome result (λ h. marked.now ≡ h ∷ []) }
    ensures spared { IfSome result (λ h. (q : ℕ) → parent_of tree.now.forest h.0 ≡ Some q →
        SparesOne tree.now.forest (told entries.now) h.0 q) }
{
    let [h] = marked else {
        return None;
    };
    let parent = tree.parent(*h)?;
    if spares_in(entries, parent, *h) {
        Some(*h)
    } else {
        None
    }
}

/// The farther of both in each direction.
fn farther_of(some: Reach, other: Reach) -> Reach
    ensures across { result.across ≡ max some.across other.across }
    ensures down { result.down ≡ max some.down other.down }
{
    Reach {
        across: some.across.max(other.across),
        down: some.down.max(other.down),
    }
}

/// Tells how far the children of an object reach that moves none, where without this one they reach as far as
/// is told.
fn add_reach(entries: &mut Table<Entry>, parent: Handle, h: Handle)
    requires parent { IsListed (listing_of entries.old) parent.0 }
    requires own { IsListed (listing_of entries.old) h.0 }
    ensures flat { (f : Forest ℕ) → is_root h.0 (children_of f parent.0) ≡ true →
        IsFlatWithout f (told entries.old) h.0 parent.0 → IsFlat f (told entries.new) parent.0 }
    ensures others { (k : ℕ) → eqb parent.0 k ≡ false →
        scrolled_at (told entries.new).scrolls k ≡ scrolled_at (told entries.old).scrolls k }
    ensures rest { ButScrolls (told entries.old) (told entries.new) }
    ensures listed { listing_of entries.new ≡ listing_of entries.old }
{
    let own = entry_of(entries, parent);
    let kid = entry_of(entries, h);
    let out = out_of(own, kid);
    let reach = farther_of(own.scrolled.reach, out);
    let scrolled = Scrolled {
        reach,
        offset: AT_REST,
    };
    set_scrolled(entries, parent, scrolled);
}

/// Finds anew how far the children reach of an object's parent, if it has one: it moves none, and without this
/// one they reach as far as is told.
pub(crate) fn renew_with(tree: &Tree, entries: &mut Table<Entry>, h: Handle)
    requires once { StandsOnce tree.now.forest }
    requires there { has tree.now.forest h.0 ≡ true }
    requires listed { (q : ℕ) → parent_of tree.now.forest h.0 ≡ Some q →
        AreListed (listing_of entries.old) (tree_at tree.now.forest q) }
    requires without { (q : ℕ) → parent_of tree.now.forest h.0 ≡ Some q →
        IsFlatWithout tree.now.forest (told entries.old) h.0 q }
    ensures own { (q : ℕ) → parent_of tree.now.forest h.0 ≡ Some q →
        IsFlat tree.now.forest (told entries.new) q }
    ensures reads { ReadsReaches tree.now.forest (told entries.old) (told entries.new) }
    ensures others { (k : ℕ) → is_it k (parent_of tree.now.forest h.0) ≡ false →
        scrolled_at (told entries.new).scrolls k ≡ scrolled_at (told entries.old).scrolls k }
    ensures listed { listing_of entries.new ≡ listing_of entries.old }
{
    if let Some(parent) = tree.parent(h) {
        add_reach(entries, parent, h);
    }
}

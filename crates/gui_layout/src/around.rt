//! How far the children reach of objects at which or below which trees were solved.
ghost use Rattle.std.specs.Prelude.{◌≡◌, ◌<◌, ℕ, Some, IfSome, [], ◌∷◌, eqb, false, true};
ghost use Rattle.gui_base.specs.Forest.{StandsOnce, has, parent_of, tree_at};
ghost use Rattle.gui_boxes.specs.Around.{IsFlat, IsFlatWithout, ReadsReaches};
ghost use Rattle.gui_boxes.specs.Listing.{times};
ghost use Rattle.gui_boxes.specs.Scrolls.{scrolled_at};
ghost use Rattle.gui_boxes.specs.Tables.{AreListed, listing_of, told};
ghost use Rattle.gui_layout.specs.Tops.{is_it, is_over};
ghost use Rattle.gui_boxes.specs.Views.{box_at};

use crate::lone::renew_with;
use gui_base::Handle;
use gui_boxes::entry::Entry;
use gui_boxes::reaching::renew_reach;
use gui_pool::Table;
use gui_tree::Tree;

/// Whether that one is this object.
fn is_that(last: Option<Handle>, h: Handle) -> bool
    ensures { result ≡ true → last ≡ Some h }
{
    match last {
        Some(found) => found == h,
        None => false,
    }
}

/// Finds anew how far the children of an object reach, unless it may move them or they were read last. The answer is
/// the object whose children were read last.
fn renew_once(
    tree: &Tree,
    entries: &mut Table<Entry>,
    last: Option<Handle>,
    h: Handle,
) -> Option<Handle>
    requires there { has tree.now.forest h.0 ≡ true }
    requires listed { AreListed (listing_of entries.old) (tree_at tree.now.forest h.0) }
    requires last { IfSome last (λ p. (box_at (told entries.old).boxes p.0).scrollable ≡ false →
        IsFlat tree.now.forest (told entries.old) p.0) }
    ensures own { (box_at (told entries.old).boxes h.0).scrollable ≡ false →
        IsFlat tree.now.forest (told entries.new) h.0 }
    ensures last { IfSome result (λ p. (box_at (told entries.old).boxes p.0).scrollable ≡ false →
        IsFlat tree.now.forest (told entries.new) p.0) }
    ensures reads { ReadsReaches tree.now.forest (told entries.old) (told entries.new) }
    ensures others { (k : ℕ) → eqb h.0 k ≡ false →
        scrolled_at (told entries.new).scrolls k ≡ scrolled_at (told entries.old).scrolls k }
    ensures listed { listing_of entries.new ≡ listing_of entries.old }
{
    if is_that(last, h) {
        return last;
    }
    renew_reach(tree, entries, h);
    Some(h)
}

/// Finds anew how far the children reach of an object's parent, if it has one that moves none, and they were not
/// read last. The answer is the object whose children were read last.
fn renew_next(
    tree: &Tree,
    entries: &mut Table<Entry>,
    last: Option<Handle>,
    h: Handle,
) -> Option<Handle>
    requires once { StandsOnce tree.now.forest }
    requires there { has tree.now.forest h.0 ≡ true }
    requires listed { (q : ℕ) → parent_of tree.now.forest h.0 ≡ Some q →
        AreListed (listing_of entries.old) (tree_at tree.now.forest q) }
    requires last { IfSome last (λ p. (box_at (told entries.old).boxes p.0).scrollable ≡ false →
        IsFlat tree.now.forest (told entries.old) p.0) }
    ensures own { (q : ℕ) → parent_of tree.now.forest h.0 ≡ Some q →
        (box_at (told entries.old).boxes q).scrollable ≡ false →
        IsFlat tree.now.forest (told entries.new) q }
    ensures last { IfSome result (λ p. (box_at (told entries.old).boxes p.0).scrollable ≡ false →
        IsFlat tree.now.forest (told entries.new) p.0) }
    ensures reads { ReadsReaches tree.now.forest (told entries.old) (told entries.new) }
    ensures others { (k : ℕ) → is_it k (parent_of tree.now.forest h.0) ≡ false →
        scrolled_at (told entries.new).scrolls k ≡ scrolled_at (told entries.old).scrolls k }
    ensures listed { listing_of entries.new ≡ listing_of entries.old }
{
    match tree.parent(h) {
        Some(parent) => renew_once(tree, entries, last, parent),
        None => last,
    }
}

/// Finds anew how far the children reach of the parents of these objects, of those that move none. Those of one
/// parent are read once where its children stand in a row. The answer is the object whose children were read last.
fn renew_parents(tree: &Tree, entries: &mut Table<Entry>, tops: &[Handle]) -> Option<Handle>
    requires once { StandsOnce tree.now.forest }
    requires there { (u : ℕ) → 0 < times tops.now u → has tree.now.forest u ≡ true }
    requires listed { (u q : ℕ) → 0 < times tops.now u → parent_of tree.now.forest u ≡ Some q →
        AreListed (listing_of entries.old) (tree_at tree.now.forest q) }
    ensures own { (u q : ℕ) → 0 < times tops.now u → parent_of tree.now.forest u ≡ Some q →
        (box_at (told entries.old).boxes q).scrollable ≡ false →
        IsFlat tree.now.forest (told entries.new) q }
    ensures last { IfSome result (λ p. (box_at (told entries.old).boxes p.0).scrollable ≡ false →
        IsFlat tree.now.forest (told entries.new) p.0) }
    ensures reads { ReadsReaches tree.now.forest (told entries.old) (told entries.new) }
    ensures others { (k : ℕ) → is_over tree.now.forest tops.now k ≡ false →
        scrolled_at (told entries.new).scrolls k ≡ scrolled_at (told entries.old).scrolls k }
    ensures listed { listing_of entries.new ≡ listing_of entries.old }
{
    let mut last = None;
    for h in tops {
        last = renew_next(tree, entries, last, *h);
    }
    last
}

/// Whether this object is the only one of these.
fn is_only(tops: &[Handle], h: Handle) -> bool
    ensures { result ≡ true → tops.now ≡ h ∷ [] }
{
    match tops {
        [top] => *top == h,
        _ => false,
    }
}

/// Finds anew how far the children reach of the parents of these objects, of those that move none. Where the
/// lone one is all of them, its siblings reach as far as is told. The answer is the object whose children were read
/// last.
pub(crate) fn renew_around(
    tree: &Tree,
    entries: &mut Table<Entry>,
    tops: &[Handle],
    lone: Option<Handle>,
) -> Option<Handle>
    requires once { StandsOnce tree.now.forest }
    requires there { (u : ℕ) → 0 < times tops.now u → has tree.now.forest u ≡ true }
    requires listed { (u q : ℕ) → 0 < times tops.now u → parent_of tree.now.forest u ≡ Some q →
        AreListed (listing_of entries.old) (tree_at tree.now.forest q) }
    requires lone { (h : Handle) (q : ℕ) → lone ≡ Some h → tops.now ≡ h ∷ [] →
        parent_of tree.now.forest h.0 ≡ Some q → IsFlatWithout tree.now.forest (told entries.old) h.0 q }
    ensures own { (u q : ℕ) → 0 < times tops.now u → parent_of tree.now.forest u ≡ Some q →
        (box_at (told entries.old).boxes q).scrollable ≡ false →
        IsFlat tree.now.forest (told entries.new) q }
    ensures last { IfSome result (λ p. (box_at (told entries.old).boxes p.0).scrollable ≡ false →
        IsFlat tree.now.forest (told entries.new) p.0) }
    ensures reads { ReadsReaches tree.now.forest (told entries.old) (told entries.new) }
    ensures others { (k : ℕ) → is_over tree.now.forest tops.now k ≡ false →
        scrolled_at (told entries.new).scrolls k ≡ scrolled_at (told entries.old).scrolls k }
    ensures listed { listing_of entries.new ≡ listing_of entries.old }
{
    if let Some(h) = lone {
        if is_only(tops, h) {
            let parent = tree.parent(h);
            renew_with(tree, entries, h);
            return parent;
        }
    }
    renew_parents(tree, entries, tops)
}

/// Finds anew how far the children reach of an object, if it is there and moves none, and they were not read last.
fn renew_there(tree: &Tree, entries: &mut Table<Entry>, last: Option<Handle>, h: Handle)
    requires listed { has tree.now.forest h.0 ≡ true →
        AreListed (listing_of entries.old) (tree_at tree.now.forest h.0) }
    requires last { IfSome last (λ p. (box_at (told entries.old).boxes p.0).scrollable ≡ false →
        IsFlat tree.now.forest (told entries.old) p.0) }
    ensures own { has tree.now.forest h.0 ≡ true → (box_at (told entries.old).boxes h.0).scrollable ≡ false →
        IsFlat tree.now.forest (told entries.new) h.0 }
    ensures reads { ReadsReaches tree.now.forest (told entries.old) (told entries.new) }
    ensures others { (k : ℕ) → eqb h.0 k ≡ false →
        scrolled_at (told entries.new).scrolls k ≡ scrolled_at (told entries.old).scrolls k }
    ensures listed { listing_of entries.new ≡ listing_of entries.old }
{
    if is_that(last, h) {
        return;
    }
    if tree.has(h) {
        renew_reach(tree, entries, h);
    }
}

/// Finds anew how far the children reach of these objects, of those that are there and move none, but of the one whose
/// children were read last.
pub(crate) fn renew_all_there(
    tree: &Tree,
    entries: &mut Table<Entry>,
    last: Option<Handle>,
    marked: &[Handle],
)
    requires listed { (k : ℕ) → 0 < times marked.now k → has tree.now.forest k ≡ true →
        AreListed (listing_of entries.old) (tree_at tree.now.forest k) }
    requires last { IfSome last (λ p. (box_at (told entries.old).boxes p.0).scrollable ≡ false →
        IsFlat tree.now.forest (told entries.old) p.0) }
    ensures own { (k : ℕ) → 0 < times marked.now k → has tree.now.forest k ≡ true →
        (box_at (told entries.old).boxes k).scrollable ≡ false →
        IsFlat tree.now.forest (told entries.new) k }
    ensures reads { ReadsReaches tree.now.forest (told entries.old) (told entries.new) }
    ensures others { (k : ℕ) → times marked.now k ≡ 0 →
        scrolled_at (told entries.new).scrolls k ≡ scrolled_at (told entries.old).scrolls k }
    ensures listed { listing_of entries.new ≡ listing_of entries.old }
{
    for h in marked {
        renew_there(tree, entries, last, *h);
    }
}

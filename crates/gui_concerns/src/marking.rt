//! Marks of the objects that may stand elsewhere after a change.
ghost use Rattle.std.specs.Prelude.{◌≤◌, ◌<◌, ◌+◌, length, Some, ◌≡◌, ◌==◌, ◌&&◌, ℕ, true, false, eqb};
ghost use Rattle.std.specs.Option.{ForSome};
ghost use Rattle.gui_base.specs.Forest.{has, tree_at};
ghost use Rattle.gui_boxes.specs.Marks.{is_changed, is_marked, mark_count, most_marks};
ghost use Rattle.gui_store.specs.Views.{removed_of, scene_of};
ghost use Rattle.gui_style.specs.Styles.{uses_style};
ghost use Rattle.gui_tree.specs.Handles.{numbers};
ghost use Rattle.debt_defs.specs.SceneLook.{is_among};
ghost use Rattle.scene_defs.specs.Scene.{handles_of, is_there};
ghost use Rattle.gui_concerns.specs.Concerned.{is_below_user, may_be};
ghost use Rattle.gui_concerns.specs.Marking.{AlsoMarks, AreMarked, AreUnmarked};

use crate::concerned::Concerned;
use gui_base::Handle;
use gui_boxes::marks::Marks;
use gui_store::Store;
use gui_tree::{Children, Tree};

/// Marks an object, if it is there.
fn mark_there(marks: &mut Marks, tree: &Tree, h: Handle)
    requires room { AreMarked marks.old tree.now.forest }
    ensures marks { AlsoMarks marks.old marks.new (λ k. eqb h.0 k && has tree.now.forest k) }
    ensures room { AreMarked marks.new tree.now.forest }
    ensures most { most_marks marks.new ≡ most_marks marks.old }
{
    if !tree.has(h) {
        return;
    }
    marks.mark(h);
}

/// Marks the objects of these trees.
fn mark_trees(marks: &mut Marks, tree: &Tree, trees: Children<'_>)
    requires same { trees.forest ≡ tree.now.forest }
    requires room { AreMarked marks.old tree.now.forest }
    ensures marks { AlsoMarks marks.old marks.new (λ k. has trees.entry.left k) }
    ensures room { AreMarked marks.new tree.now.forest }
    ensures most { most_marks marks.new ≡ most_marks marks.old }
{
    for h in trees {
        marks.mark(h);
        mark_trees(marks, tree, tree.children(h));
    }
}

/// Marks an object and all below it, if it is there.
fn mark_below(marks: &mut Marks, tree: &Tree, h: Handle)
    requires room { AreMarked marks.old tree.now.forest }
    ensures marks { AlsoMarks marks.old marks.new (λ k. has (tree_at tree.now.forest h.0) k) }
    ensures room { AreMarked marks.new tree.now.forest }
    ensures most { most_marks marks.new ≡ most_marks marks.old }
{
    if !tree.has(h) {
        return;
    }
    marks.mark(h);
    mark_trees(marks, tree, tree.children(h));
}

/// Marks the objects that use a style.
fn mark_users(marks: &mut Marks, store: &Store, style: u16)
    requires room { AreMarked marks.old (handles_of (scene_of store.now).trees) }
    ensures marks { AlsoMarks marks.old marks.new
        (λ k. is_there (scene_of store.now) k && uses_style (scene_of store.now).book k style) }
    ensures room { AreMarked marks.new (handles_of (scene_of store.now).trees) }
    ensures most { most_marks marks.new ≡ most_marks marks.old }
{
    let tree = store.tree();
    let mut users = store.users(style);
    while let Some(user) = users.next() {
        mark_there(marks, tree, *user);
    }
}

/// Marks the objects that use a style, and all below them. One that lies below several users is visited once
/// for each of them.
fn mark_below_users(marks: &mut Marks, store: &Store, style: u16)
    requires room { AreMarked marks.old (handles_of (scene_of store.now).trees) }
    ensures marks { AlsoMarks marks.old marks.new
        (λ k. is_there (scene_of store.now) k && is_below_user (scene_of store.now) style k) }
    ensures room { AreMarked marks.new (handles_of (scene_of store.now).trees) }
    ensures most { most_marks marks.new ≡ most_marks marks.old }
{
    let tree = store.tree();
    let mut users = store.users(style);
    while let Some(user) = users.next() {
        mark_below(marks, tree, *user);
    }
}

/// Marks all objects.
fn mark_all(marks: &mut Marks, store: &Store)
    requires room { AreMarked marks.old (handles_of (scene_of store.now).trees) }
    ensures marks { AlsoMarks marks.old marks.new (is_there (scene_of store.now)) }
    ensures room { AreMarked marks.new (handles_of (scene_of store.now).trees) }
    ensures most { most_marks marks.new ≡ most_marks marks.old }
{
    let tree = store.tree();
    mark_trees(marks, tree, tree.roots());
}

/// Marks the objects that are there and that a change may concern. If it concerns some of them, no others are
/// visited.
pub fn mark_concerned(marks: &mut Marks, store: &Store, concerned: Concerned)
    requires room { AreMarked marks.old (handles_of (scene_of store.now).trees) }
    ensures marks { AlsoMarks marks.old marks.new
        (λ k. is_there (scene_of store.now) k && may_be (scene_of store.now) concerned k) }
    ensures room { AreMarked marks.new (handles_of (scene_of store.now).trees) }
    ensures most { most_marks marks.new ≡ most_marks marks.old }
{
    let tree = store.tree();
    match concerned {
        Concerned::Nobody => {}
        Concerned::One(h) => mark_there(marks, tree, h),
        Concerned::Both(h, k) => {
            mark_there(marks, tree, h);
            mark_there(marks, tree, k);
        }
        Concerned::Below(h) => mark_below(marks, tree, h),
        Concerned::Moved(h, p, q) => {
            mark_below(marks, tree, h);
            mark_there(marks, tree, p);
            mark_there(marks, tree, q);
        }
        Concerned::Users(style) => mark_users(marks, store, style),
        Concerned::BelowUsers(style) => mark_below_users(marks, store, style),
        Concerned::Anybody => mark_all(marks, store),
    }
}

/// Marks each of these objects, be it there or gone.
fn mark_listed(marks: &mut Marks, listed: &[Handle])
    requires room { mark_count marks.old + length listed.now ≤ most_marks marks.old }
    ensures marks { AlsoMarks marks.old marks.new (λ k. is_among (numbers listed.now) k) }
    ensures most { most_marks marks.new ≡ most_marks marks.old }
    ensures count { mark_count marks.new ≤ mark_count marks.old + length listed.now }
{
    for h in listed {
        marks.mark(*h);
    }
}

/// Marks the objects that went last, and that the children of their parent, if they had one, may be others.
pub fn mark_gone(marks: &mut Marks, store: &Store, parent: Option<Handle>)
    requires none { AreUnmarked marks.old (scene_of store.now).limits.objects }
    requires room { length (removed_of store.now) < (scene_of store.now).limits.objects }
    ensures gone { (k : ℕ) → is_changed marks.new k ≡ is_among (removed_of store.now) k }
    ensures parent { (p : Handle) → parent ≡ Some p → is_marked marks.new p.0 ≡ true }
    ensures others { (k : ℕ) → is_among (removed_of store.now) k ≡ false →
        ((p : Handle) → parent ≡ Some p → (k == p.0) ≡ false) → is_marked marks.new k ≡ false }
    ensures most { most_marks marks.new ≡ most_marks marks.old }
{
    mark_listed(marks, store.tree().last_removed());
    let Some(p) = parent else {
        return;
    };
    marks.mark_children(p);
}

/// Marks an object that came, and that the children of its parent may be others.
pub fn mark_new(marks: &mut Marks, store: &Store, child: Handle, parent: Handle)
    requires own { is_there (scene_of store.now) child.0 ≡ true }
    requires above { is_there (scene_of store.now) parent.0 ≡ true }
    requires none { AreUnmarked marks.old (scene_of store.now).limits.objects }
    ensures own { is_changed marks.new child.0 ≡ true }
    ensures changed { (k : ℕ) → (k == child.0) ≡ false → is_changed marks.new k ≡ false }
    ensures parent { is_marked marks.new parent.0 ≡ true }
    ensures others { (k : ℕ) → (k == child.0) ≡ false → (k == parent.0) ≡ false →
        is_marked marks.new k ≡ false }
    ensures most { most_marks marks.new ≡ most_marks marks.old }
{
    // For the proof alone: `tree` says that the scene is in order.
    let _tree = store.tree();
    marks.mark(child);
    marks.mark_children(parent);
}

/// Marks a tree that went from its parent, if it had one, below another: all that stands in it, and that the
/// children of both parents may be others.
pub fn mark_reparented(
    marks: &mut Marks,
    store: &Store,
    h: Handle,
    old: Option<Handle>,
    new: Handle,
)
    requires old { ForSome old (λ p. is_there (scene_of store.now) p.0 ≡ true) }
    requires new { is_there (scene_of store.now) new.0 ≡ true }
    requires none { AreUnmarked marks.old (scene_of store.now).limits.objects }
    ensures below { (k : ℕ) → is_changed marks.new k
        ≡ has (tree_at (handles_of (scene_of store.now).trees) h.0) k }
    ensures old { (p : Handle) → old ≡ Some p → is_marked marks.new p.0 ≡ true }
    ensures new { is_marked marks.new new.0 ≡ true }
    ensures others { (k : ℕ) → has (tree_at (handles_of (scene_of store.now).trees) h.0) k ≡ false →
        (k == new.0) ≡ false → ((p : Handle) → old ≡ Some p → (k == p.0) ≡ false) → is_marked marks.new k ≡ false }
    ensures most { most_marks marks.new ≡ most_marks marks.old }
{
    mark_below(marks, store.tree(), h);
    marks.mark_children(new);
    if let Some(old) = old {
        marks.mark_children(old);
    }
}

/// Marks that the children of an object may stand in another order.
pub fn mark_beside(marks: &mut Marks, store: &Store, parent: Handle)
    requires none { AreUnmarked marks.old (scene_of store.now).limits.objects }
    ensures changed { (k : ℕ) → is_changed marks.new k ≡ false }
    ensures parent { is_marked marks.new parent.0 ≡ true }
    ensures others { (k : ℕ) → (k == parent.0) ≡ false → is_marked marks.new k ≡ false }
    ensures most { most_marks marks.new ≡ most_marks marks.old }
{
    // For the proof alone: `tree` says that the scene is in order.
    let _tree = store.tree();
    marks.mark_children(parent);
}

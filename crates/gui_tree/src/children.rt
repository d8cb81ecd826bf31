//! A walk over trees that stand side by side.
ghost use Rattle.std.specs.Prelude.{◌≡◌};
ghost use Rattle.std.specs.Iterator.{item_count};
ghost use Rattle.gui_base.specs.Forest.{StandsOnce, children_of, roots};
ghost use Rattle.gui_tree.specs.Walks.{Visits, walk};

use crate::tree::Tree;
use gui_base::Handle;
use std::marker::Model;

/// The objects of trees that stand side by side, the first first. A contract sees all trees, and those that
/// are still to come.
#[derive(Drop)]
pub struct Children<'a> {
    tree: &'a Tree,
    next: Option<Handle>,
}

impl<'a> Model for Children<'a> {
    ghost use Rattle.gui_tree.specs.Walks.{Walk, walk_code};

    ghost Value = { Walk };

    ghost coded = { walk_code };

    ghost use Rattle.gui_tree.specs.Walks.{walk, trees_from};
    ghost use Rattle.gui_tree.specs.Parts.{IsWalk};

    ghost view = { λ w. walk w.tree.now.forest (trees_from w.next w.tree.now.forest) };

    ghost invariant = { λ w. IsWalk w.tree.now.forest w.next };
}

impl Tree {
    /// The children of an object, in order.
    pub fn children(&self, h: Handle) -> Children<'_>
        ensures walk { result ≡ walk self.now.forest (children_of self.now.forest h.0) }
        ensures once { StandsOnce self.now.forest }
    {
        // For the proof alone: this call says that each handle stands once in all trees.
        let _ = self.spare();
        Children {
            tree: self,
            next: self.first_child(h),
        }
    }

    /// The roots, in order.
    pub fn roots(&self) -> Children<'_>
        ensures walk { result ≡ walk self.now.forest self.now.forest }
        ensures once { StandsOnce self.now.forest }
    {
        // For the proof alone: this call says that each handle stands once in all trees.
        let _ = self.spare();
        Children {
            tree: self,
            next: self.first_root(),
        }
    }
}

impl<'a> Iterator for Children<'a> {
    type Item = Handle;

    ghost next_gives = { Visits };

    ghost remaining = { item_count (λ w. roots w.left) };

    fn next(&mut self) -> Option<Handle> {
        let child = self.next?;
        let next = self.tree.next(child);
        self.next = next;
        Some(child)
    }
}

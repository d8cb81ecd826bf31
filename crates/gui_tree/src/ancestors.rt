//! A walk from an object up to its root.
ghost use Rattle.std.specs.Prelude.{◌≡◌};
ghost use Rattle.std.specs.Iterator.{YieldsFirstBy, item_count};
ghost use Rattle.gui_tree.specs.Walks.{line_of};

use crate::tree::Tree;
use gui_base::Handle;
use std::marker::Model;

/// An object, be it there or not, and those above it, the nearest first. A contract sees the handles that are
/// still to come.
#[derive(Drop)]
pub struct Ancestors<'a> {
    tree: &'a Tree,
    next: Option<Handle>,
}

impl<'a> Model for Ancestors<'a> {
    ghost use Rattle.std.specs.Prelude.{ℕ, List};

    ghost Value = { List ℕ };

    ghost use Rattle.gui_base.specs.Forest.{StandsOnce};
    ghost use Rattle.gui_tree.specs.Walks.{line_from};

    ghost view = { λ a. line_from a.next a.tree.now.forest };

    ghost invariant = { λ a. StandsOnce a.tree.now.forest };
}

impl Tree {
    /// An object, be it there or not, and those above it, the nearest first.
    pub fn ancestors(&self, h: Handle) -> Ancestors<'_>
        ensures { result ≡ line_of self.now.forest h.0 }
    {
        // For the proof alone: this call says that each handle stands once in all trees.
        let _ = self.spare();
        Ancestors {
            tree: self,
            next: Some(h),
        }
    }
}

impl<'a> Iterator for Ancestors<'a> {
    type Item = Handle;

    ghost next_gives = { YieldsFirstBy (λ h. h.0) (λ rest. rest) };

    ghost remaining = { item_count (λ rest. rest) };

    fn next(&mut self) -> Option<Handle> {
        let above = self.next?;
        let next = self.tree.parent(above);
        self.next = next;
        Some(above)
    }
}

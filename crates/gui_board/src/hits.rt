//! The object that a point of the panel hits.
ghost use Rattle.std.specs.Prelude.{◌≡◌, ◌<◌, ◌&&◌, get_or, length, option_map};
ghost use Rattle.gui_base.specs.Corners.{rect_of};
ghost use Rattle.gui_base.specs.declared.words.Flag.TheVariants.{Clickable};
ghost use Rattle.run_defs.specs.Pointing.{hit, is_flagged};
ghost use Rattle.scene_defs.specs.Shown.{entries, own};
ghost use Rattle.scene_defs.specs.Visible.{holds};
ghost use Rattle.gui_board.specs.Hits.{hit_of};

use crate::board::Board;
use gui_base::{Area, Flag, Handle};

impl Board {
    ghost use Rattle.gui_board.specs.Boards.{machine_of};

    /// The object whose own entry is the nth that is painted, if it is clickable and the point lies in what is
    /// seen of it. Bars are not hit.
    fn hit_at(&self, x: i32, y: i32, n: usize) -> Option<Handle>
        requires { n < length (entries (machine_of self.now).scene) }
        ensures { let scene = (machine_of self.now).scene in
            result ≡ hit_of scene x y (get_or (entries scene) n (own 0)) }
    {
        if self.canvas.is_bars_at(n) {
            return None;
        }
        let entry = self.canvas.entry_at(n)?;
        let visible = entry.visible();
        if self.is_clicked(x, y, entry.h, visible) {
            Some(entry.h)
        } else {
            None
        }
    }

    /// Whether the point lies in the part of an object that is seen, and the object is clickable.
    fn is_clicked(&self, x: i32, y: i32, h: Handle, visible: Option<Area>) -> bool
        ensures { result ≡ (is_flagged Clickable (machine_of self.now).scene h && holds (option_map rect_of visible) x y) }
    {
        match visible {
            Some(area) => area.holds(x, y) && self.is_flagged(Flag::Clickable, h),
            None => false,
        }
    }

    /// The object that a point hits: the last in paint order that is clickable and seen there.
    pub fn hit(&self, x: i32, y: i32) -> Option<Handle>
        ensures { result ≡ hit (machine_of self.now).scene x y }
    {
        let mut n = self.canvas.entry_count();
        while n > 0 {
            n -= 1;
            let hit = self.hit_at(x, y, n);
            if hit.is_some() {
                return hit;
            }
        }
        None
    }
}

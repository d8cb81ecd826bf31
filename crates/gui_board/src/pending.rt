//! How many pixels are pending.
ghost use Rattle.std.specs.Prelude.{◌≡◌, ◌≤◌, ◌<◌, ◌*◌, ◌^◌};
ghost use Rattle.gui_base.specs.Area.{size_of};
ghost use Rattle.gui_damage.specs.Damage.{rects_of};
ghost use Rattle.gui_damage.specs.Pending.{most_areas, total};

use crate::board::Board;
use gui_base::Area;

impl Board {
    ghost use Rattle.gui_board.specs.Boards.{pending_of};

    /// How many pixels are pending, those of each listed area by themselves.
    pub fn pending(&self) -> u64
        ensures pixels { result ≡ total (pending_of self.now).areas }
        ensures most { result ≤ most_areas * size_of (pending_of self.now).panel }
    {
        // For the proof alone: `limits` says that the panel is small.
        let _limits = self.canvas.store().limits();
        pixels_of(self.damage.areas())
    }
}

/// How many pixels areas have, those of each by themselves.
fn pixels_of(areas: &[Area]) -> u64
    requires { total (rects_of areas.now) < 2 ^ 64 }
    ensures { result ≡ total (rects_of areas.now) }
{
    let mut pixels = 0;
    let mut rest = areas;
    while let [area, others @ ..] = rest {
        pixels += area.size();
        rest = others;
    }
    pixels
}

//! Pictures that are drawn part by part.
ghost use Rattle.std.specs.Prelude.{◌+◌, ◌*◌, ◌≤◌};
ghost use Rattle.gui_base.specs.Area.{size_of};
ghost use Rattle.gui_color.specs.Buffer.{IsBlack};
ghost use Rattle.gui_draw.specs.Drawing.{ShowsColors};

use gui_base::Steps;
use gui_color::DrawBuf;
use std::sync::ledger::Ledger;

/// A picture of which any part can be drawn by itself.
pub trait Picture {
    ghost use Rattle.std.specs.Prelude.{ℕ, ℤ};
    ghost use Rattle.gui_base.specs.declared.color.Rgb565.{Rgb565};

    /// The colour of each pixel.
    ghost color: { Self → ℤ → ℤ → Rgb565 };

    /// How many steps a pixel of a part takes at most.
    ghost per_pixel: { Self → ℕ };

    /// How many steps a part takes at most besides those of its pixels.
    ghost per_slice: { Self → ℕ };

    /// Draws what the picture has in the buffer's area. The area is black, as `DrawBuf::begin` leaves it.
    fn slice<L: Ledger>(&self, buf: &mut DrawBuf, steps: &mut Steps<L>)
        requires { IsBlack buf.old }
        ensures colors { ShowsColors buf.old buf.new (color self.now) }
        ensures steps { steps.new ≤ steps.old + (size_of buf.old.area * per_pixel self.now + per_slice self.now) };
}

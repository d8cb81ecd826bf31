//! A picture that is white in a part, and black elsewhere.
ghost use Rattle.gui_base.specs.Area.{has};

use gui_base::{Area, Rgb565, Steps};
use gui_color::DrawBuf;
use gui_draw::{Picture, fill};
use std::sync::ledger::Ledger;

/// White in a part, and black elsewhere.
#[derive(Clone, Copy)]
pub(crate) struct Lit {
    pub(crate) part: Area,
}

impl Lit {
    /// The colour of a pixel.
    pub(crate) fn color(&self, x: i32, y: i32) -> Rgb565 {
        if self.part.holds(x, y) {
            Rgb565::WHITE
        } else {
            Rgb565::BLACK
        }
    }
}

impl Picture for Lit {
    ghost use Rattle.std.specs.Prelude.{if◌then◌else◌};
    ghost use Rattle.gui_base.specs.Color.{black, white};
    ghost use Rattle.gui_base.specs.Corners.{rect_of};

    ghost color = { λ picture x y. if has (rect_of picture.part) x y then white else black };

    ghost per_pixel = { λ picture. 1 };

    ghost per_slice = { λ picture. 0 };

    fn slice<L: Ledger>(&self, buf: &mut DrawBuf, steps: &mut Steps<L>) {
        let area = buf.area();
        fill(buf, area, self.part, Rgb565::WHITE, 255, steps);
    }
}

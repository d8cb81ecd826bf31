//! What painting takes if objects hide others, as worked out by hand.
ghost use Rattle.std.specs.Prelude.{◌≡◌, ◌≤◌, ◌+◌};
ghost use Rattle.cover_defs.specs.Examples.{stacked};
ghost use Rattle.gui_store.specs.Views.{scene_of};

use cover_defs::worked_examples;
use gui_base::{Area, Steps};
use gui_color::DrawBuf;
use gui_draw::Picture;
use gui_paint::Shown;
use std::sync::ledger::Ledger;

/// Paints all 16 by 16 pixels of ten opaque objects that hide one another: the ledger counts 1831 steps at most. To make
/// the pixels black and to fill them ten times takes 2816.
pub fn paint_stacked<L: Ledger>(shown: &Shown<'_>, buf: &mut DrawBuf, steps: &mut Steps<L>)
    requires scene { scene_of shown.now.store.now ≡ stacked }
    requires fits { 256 ≤ buf.old.limit }
    ensures { steps.new ≤ steps.old + 1831 }
{
    worked_examples();
    buf.begin(Area::at(0, 0, 16, 16), steps);
    shown.slice(buf, steps);
}

//! The record of an object in another place.
ghost use Rattle.std.specs.Prelude.{◌≡◌, IfSome, is_some};
ghost use Rattle.gui_base.specs.Area.{Rect};
ghost use Rattle.gui_base.specs.Corners.{rect_of};
ghost use Rattle.gui_pack.specs.Records.{is_alone, paints_in};
ghost use Rattle.pack_defs.specs.Paints.{items_in};
ghost use Rattle.widget_defs.specs.Items.{items};
ghost use Rattle.widget_defs.specs.Looks.{Look};

use crate::record::{More, Paints};
use gui_base::Area;

impl Paints {
    /// The record of the same object in another place, if it paints its own part alone: none if more stands in
    /// its content area, which depends on its pads.
    pub fn moved(&self, place: Area) -> Option<Paints>
        ensures alone { is_some result ≡ is_alone self.now.more }
        ensures items { IfSome result (λ moved. (look : Look) (area : Rect) →
            items_in (paints_in self.now) ≡ items look area → items_in (paints_in moved) ≡ items look (rect_of place)) }
    {
        match self.more {
            More::Nothing => Some(Paints {
                place,
                main: self.main,
                more: More::Nothing,
            }),
            _ => None,
        }
    }
}

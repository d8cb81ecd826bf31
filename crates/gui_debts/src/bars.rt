//! The bars that an object shows over its children.
ghost use Rattle.std.specs.Prelude.{◌≡◌, ◌≤◌, ◌<◌, ◌+◌, ◌++◌, option_map};
ghost use Rattle.arrayvec.specs.ArrayVec.{array_vec_len};
ghost use Rattle.gui_base.specs.Corners.{rect_of};
ghost use Rattle.gui_layout.specs.Solved.{AreReached, AreSolved};
ghost use Rattle.gui_store.specs.Views.{scene_of};
ghost use Rattle.gui_widgets.specs.Looks.{items_of};
ghost use Rattle.pack_defs.specs.Packing.{color_of, opa_of};
ghost use Rattle.scene_defs.specs.Items.{bars};
ghost use Rattle.gui_debts.specs.Bars.{bar_in, bars_in, kept_in, kept_of, no_bars, same_kept};

use crate::same::same_visible;
use arrayvec::ArrayVec;
use gui_base::{Area, Handle, Rgb565};
use gui_layout::Places;
use gui_store::Store;
use gui_widgets::{Item, ItemPaint};

/// At most two areas, which are filled alike.
#[derive(Clone, Copy)]
pub struct Bars {
    /// The one behind, if there is one.
    pub first: Option<Area>,
    /// The one before it, if there are two.
    pub second: Option<Area>,
    /// The colour of both.
    pub color: Rgb565,
    /// The opacity of both.
    pub opa: u8,
}

impl Bars {
    /// None.
    pub(crate) fn none() -> Bars
        ensures { kept_in result ≡ no_bars }
    {
        Bars {
            first: None,
            second: None,
            color: Rgb565::BLACK,
            opa: 0,
        }
    }

    /// The bars of an object, from back to front.
    pub fn items(&self) -> ArrayVec<Item, 2>
        ensures { items_of result.items ≡ bars_in self.now }
    {
        let mut items = ArrayVec::new();
        push_bar(&mut items, self.first, self.color, self.opa);
        push_bar(&mut items, self.second, self.color, self.opa);
        items
    }
}

/// Puts a filled area behind the others, if there is one.
fn push_bar(items: &mut ArrayVec<Item, 2>, area: Option<Area>, color: Rgb565, opa: u8)
    requires few { array_vec_len items.old < 2 }
    ensures items { items_of items.new.items
        ≡ items_of items.old.items ++ bar_in (option_map rect_of area) color opa }
    ensures few { array_vec_len items.new ≤ array_vec_len items.old + 1 }
{
    if let Some(area) = area {
        items.push(Item {
            area,
            paint: ItemPaint::Fill { color, opa },
        });
    }
}

/// The colour of what an item paints.
fn color_of(paint: ItemPaint) -> Rgb565
    ensures { result ≡ color_of paint }
{
    match paint {
        ItemPaint::Fill { color, .. } => color,
        ItemPaint::Ring { color, .. } => color,
        ItemPaint::Ink { color, .. } => color,
        ItemPaint::Picture { recolor, .. } => recolor,
    }
}

/// Its opacity.
fn opa_of(paint: ItemPaint) -> u8
    ensures { result ≡ opa_of paint }
{
    match paint {
        ItemPaint::Fill { opa, .. } => opa,
        ItemPaint::Ring { opa, .. } => opa,
        ItemPaint::Ink { opa, .. } => opa,
        ItemPaint::Picture { opa, .. } => opa,
    }
}

/// What is kept of items that are bars.
fn packed(items: &[Item]) -> Bars
    ensures { kept_in result ≡ kept_of (items_of items.now) }
{
    match items {
        [bar] => Bars {
            first: Some(bar.area),
            second: None,
            color: color_of(bar.paint),
            opa: opa_of(bar.paint),
        },
        [bar, other] => Bars {
            first: Some(bar.area),
            second: Some(other.area),
            color: color_of(bar.paint),
            opa: opa_of(bar.paint),
        },
        _ => Bars::none(),
    }
}

/// The bars that an object shows.
pub fn bars_at(store: &Store, places: &Places, h: Handle) -> Bars
    requires solved { AreSolved places.now (scene_of store.now) }
    requires reached { AreReached places.now (scene_of store.now) }
    ensures items { bars_in result ≡ bars (scene_of store.now) h.0 }
    ensures kept { kept_in result ≡ kept_of (bars (scene_of store.now) h.0) }
{
    let bars = places.bars(store, h);
    packed(bars.as_slice())
}

/// Whether these are the same areas, filled alike.
pub fn are_equal(a: Bars, b: Bars) -> bool
    ensures { result ≡ same_kept (kept_in a) (kept_in b) }
{
    (same_visible(a.first, b.first) && same_visible(a.second, b.second))
        && (a.color == b.color && a.opa == b.opa)
}

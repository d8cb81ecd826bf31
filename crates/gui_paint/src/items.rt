//! Painting the items of an object.
ghost use Rattle.std.specs.Prelude.{◌≤◌, ◌+◌, ◌*◌, length, map};
ghost use Rattle.std.specs.List.{All};
ghost use Rattle.std.specs.Str.{chars};
ghost use Rattle.gui_base.specs.Area.{size_of};
ghost use Rattle.gui_base.specs.Corners.{rect_of};
ghost use Rattle.gui_store.specs.Views.{scene_of};
ghost use Rattle.gui_widgets.specs.Looks.{item_of, items_of};
ghost use Rattle.scene_defs.specs.Items.{coat_in};
ghost use Rattle.gui_paint.specs.Painting.{Paints, painted_coat, painted_coats};
ghost use Rattle.gui_paint.specs.Paintable.{IsPaintable};

use gui_base::{Area, Steps};
use gui_color::DrawBuf;
use gui_draw::{fill, ink, picture, ring};
use gui_store::Store;
use gui_widgets::{Item, ItemPaint};
use std::sync::ledger::Ledger;

/// Paints items of an object of a scene over the pixels of the buffer that are in `visible`, each over those
/// before it. The object's text has at most 1,000 bytes.
pub(crate) fn paint_items<L: Ledger>(
    buf: &mut DrawBuf,
    visible: Area,
    items: &[Item],
    store: &Store,
    text: &str,
    steps: &mut Steps<L>,
)
    requires ready { All (IsPaintable (scene_of store.now).fonts) (items_of items.now) }
    requires short { length text.now ≤ 1000 }
    ensures painted { let scene = scene_of store.now in
        Paints buf.old buf.new (painted_coats (rect_of visible)
        (map (coat_in scene.fonts scene.images (chars text.now)) (items_of items.now))) }
    ensures steps { steps.new ≤ steps.old
        + length items.now * (size_of buf.old.area + length (chars text.now)) }
{
    for item in items {
        paint_item(buf, visible, *item, store, text, steps);
    }
}

/// Paints an item of an object over the pixels of the buffer that are in `visible`.
fn paint_item<L: Ledger>(
    buf: &mut DrawBuf,
    visible: Area,
    item: Item,
    store: &Store,
    text: &str,
    steps: &mut Steps<L>,
)
    requires ready { IsPaintable (scene_of store.now).fonts (item_of item) }
    requires short { length text.now ≤ 1000 }
    ensures painted { let scene = scene_of store.now in
        Paints buf.old buf.new (painted_coat (rect_of visible)
        (coat_in scene.fonts scene.images (chars text.now) (item_of item))) }
    ensures steps { steps.new ≤ steps.old + (size_of buf.old.area + length (chars text.now)) }
{
    let area = item.area;
    match item.paint {
        ItemPaint::Fill { color, opa } => fill(buf, visible, area, color, opa, steps),
        ItemPaint::Ring { width, color, opa } => {
            ring(buf, visible, area, width, color, opa, steps);
        }
        ItemPaint::Ink { look, color, opa } => {
            let fonts = store.fonts();
            ink(buf, visible, area, fonts, look, text, color, opa, steps);
        }
        ItemPaint::Picture {
            image,
            recolor,
            opa,
        } => {
            let images = store.images();
            picture(buf, visible, area, images, image, recolor, opa, steps);
        }
    }
}

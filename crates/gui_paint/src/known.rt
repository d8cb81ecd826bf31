//! Painting objects whose items are known.
ghost use Rattle.std.specs.Prelude.{◌≡◌, ◌≤◌, ◌+◌, true, length};
ghost use Rattle.std.specs.List.{list_all};
ghost use Rattle.cover_defs.specs.Steps.{bar_steps, object_steps};
ghost use Rattle.gui_base.specs.Area.{size_of};
ghost use Rattle.gui_base.specs.Corners.{rect_of};
ghost use Rattle.gui_store.specs.Views.{scene_of};
ghost use Rattle.gui_widgets.specs.Looks.{item_of, items_of};
ghost use Rattle.gui_paint.specs.Paintable.{is_drawable, is_plain};
ghost use Rattle.scene_defs.specs.Edits.{text_at};
ghost use Rattle.scene_defs.specs.Scene.{is_there};

use crate::items::paint_items;
use crate::paint::paint_object;
use crate::shown::Shown;
use crate::walk::SeenObject;
use arrayvec::ArrayVec;
use gui_base::{Area, Handle, Steps};
use gui_color::DrawBuf;
use gui_font::Fonts;
use gui_store::Store;
use gui_widgets::{Item, ItemPaint};
use std::sync::ledger::Ledger;

/// Whether an item has no text.
fn is_plain(item: &Item) -> bool
    ensures { result ≡ is_plain (item_of item.now) }
{
    match item.paint {
        ItemPaint::Ink { .. } => false,
        ItemPaint::Fill { .. } | ItemPaint::Ring { .. } | ItemPaint::Picture { .. } => true,
    }
}

/// Whether no item has a text.
fn are_plain(items: &[Item]) -> bool
    ensures { result ≡ list_all is_plain (items_of items.now) }
{
    let mut are_plain = true;
    for item in items {
        are_plain = are_plain && is_plain(item);
    }
    are_plain
}

/// The widest area that a text can be set in, in pixels.
const WIDEST: u32 = 400_000;

/// Whether the text of an item, if it has one, can be drawn as it is set.
fn is_drawable(item: &Item, fonts: &Fonts) -> bool
    ensures { result ≡ is_drawable fonts.now.fonts (item_of item.now) }
{
    match item.paint {
        ItemPaint::Ink { look, .. } => {
            fonts.finished(look.font).unwrap_or(false)
                && (look.letter <= 100 && (look.line <= 100 && item.area.width() <= WIDEST))
        }
        ItemPaint::Fill { .. } | ItemPaint::Ring { .. } | ItemPaint::Picture { .. } => true,
    }
}

/// Whether the texts of all items can.
fn are_drawable(items: &[Item], fonts: &Fonts) -> bool
    ensures { result ≡ list_all (is_drawable fonts.now.fonts) (items_of items.now) }
{
    let mut are_drawable = true;
    for item in items {
        are_drawable = are_drawable && is_drawable(item, fonts);
    }
    are_drawable
}

/// The text of an object that is there, whose bytes are written into `room`.
fn text_of<'a>(store: &Store, h: Handle, room: &'a mut ArrayVec<u8, 1000>) -> &'a str
    requires { is_there (scene_of store.now) h.0 ≡ true }
    ensures text { result.now ≡ text_at (scene_of store.now) h.0 }
    ensures short { length result.now ≤ 1000 }
{
    store.text_into(h, room);
    match std::str::from_utf8(room.as_slice()) {
        Ok(text) => text,
        Err(_) => unreachable!(),
    }
}

impl<'a> Shown<'a> {
    ghost use Rattle.scene_defs.specs.Items.{bars, items};
    ghost use Rattle.scene_defs.specs.Scene.{is_there};
    ghost use Rattle.gui_paint.specs.Painting.{Paints, painted_bars, painted_object};

    // Each parameter by itself, as in the drawing calls: a caller has them from different places.
    /// Paints an object by itself over the pixels of the buffer that are in `visible`. It is there, and `known`
    /// is all that it paints: nothing of it is looked up but the bytes of its text, if it has one. `text` is
    /// room for a text.
    pub fn paint_known<L: Ledger>(
        &self,
        buf: &mut DrawBuf,
        visible: Area,
        h: Handle,
        known: &[Item],
        text: &mut ArrayVec<u8, 1000>,
        steps: &mut Steps<L>,
    )
        requires there { is_there (scene_of self.now.store.now) h.0 ≡ true }
        requires known { items_of known.now ≡ items (scene_of self.now.store.now) h.0 }
        ensures painted { Paints buf.old buf.new
            (painted_object (scene_of self.now.store.now) (rect_of visible) h.0) }
        ensures steps { steps.new ≤ steps.old
            + object_steps (scene_of self.now.store.now) (size_of buf.old.area) h.0 }
    {
        let store = self.store;
        let _tree = store.tree();
        if are_plain(known) {
            paint_items(buf, visible, known, store, "", steps);
        } else if are_drawable(known, store.fonts()) {
            let letters = text_of(store, h, text);
            paint_items(buf, visible, known, store, letters, steps);
        } else if let Some(place) = self.places.place(h) {
            paint_object(self, buf, SeenObject { place, visible }, h, text, steps);
        }
    }

    /// Paints the bars of an object over the pixels of the buffer that are in `visible`. `known` are its bars:
    /// nothing of it is looked up.
    pub fn paint_known_bars<L: Ledger>(
        &self,
        buf: &mut DrawBuf,
        visible: Area,
        h: Handle,
        known: &[Item],
        steps: &mut Steps<L>,
    )
        requires { items_of known.now ≡ bars (scene_of self.now.store.now) h.0 }
        ensures painted { Paints buf.old buf.new
            (painted_bars (scene_of self.now.store.now) (rect_of visible) h.0) }
        ensures steps { steps.new ≤ steps.old
            + bar_steps (scene_of self.now.store.now) (size_of buf.old.area) h.0 }
    {
        let _ = h;
        paint_items(buf, visible, known, self.store, "", steps);
    }
}

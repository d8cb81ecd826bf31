//! The picture of a canvas.
ghost use Rattle.std.specs.Prelude.{◌≡◌, ◌≤◌, ◌<◌, ◌+◌, ◌*◌, length, drop, get_or, map, sum_by};
ghost use Rattle.gui_base.specs.Area.{size_of};
ghost use Rattle.gui_base.specs.Corners.{rect_of};
ghost use Rattle.gui_change.specs.Canvas.{scene_in};
ghost use Rattle.gui_debts.specs.Seen.{IsKnown, entry_of};
ghost use Rattle.gui_color.specs.Buffer.{IsBlack};
ghost use Rattle.gui_draw.specs.Drawing.{ShowsColors};
ghost use Rattle.gui_paint.specs.Painting.{Paints};
ghost use Rattle.gui_store.specs.Views.{scene_of};
ghost use Rattle.scene_defs.specs.Picture.{paint as paint_of};
ghost use Rattle.scene_defs.specs.Shown.{entries, own, seen_entry};
ghost use Rattle.cover_defs.specs.Cover.{is_cover, from_last};
ghost use Rattle.cover_defs.specs.Steps.{slice_steps};
ghost use Rattle.gui_view.specs.Covering.{covers_known};
ghost use Rattle.gui_view.specs.Painted.{asked_steps, entry_steps, painted_all, painted_entry, visit_steps};

use arrayvec::ArrayVec;
use gui_base::{Area, Steps};
use gui_change::Canvas;
use gui_color::DrawBuf;
use gui_debts::ShownEntry;
use gui_draw::Picture;
use gui_paint::{Shown, covers, has_area};
use std::sync::ledger::Ledger;

/// The picture of the scene of a canvas.
#[derive(Clone, Copy)]
pub struct View<'a> {
    pub canvas: &'a Canvas,
}

impl<'a> Picture for View<'a> {
    ghost use Rattle.gui_change.specs.Canvas.{scene_in};
    ghost use Rattle.scene_defs.specs.Picture.{paint};
    ghost use Rattle.cover_defs.specs.Cover.{items_shown};
    ghost use Rattle.cover_defs.specs.Steps.{slice_extra};

    ghost color = { λ v. paint (scene_in v.canvas.now) };

    ghost per_pixel = { λ v. items_shown (scene_in v.canvas.now) };

    ghost per_slice = { λ v. slice_extra (scene_in v.canvas.now) };

    /// Draws what the picture has in the buffer's area, from the last object on that covers it.
    fn slice<L: Ledger>(&self, buf: &mut DrawBuf, steps: &mut Steps<L>)
        requires { IsBlack buf.old }
        ensures colors { ShowsColors buf.old buf.new (paint_of (scene_in self.now.canvas.now)) }
        ensures steps { steps.new ≤ steps.old + (size_of buf.old.area
            * items_shown (scene_in self.now.canvas.now) + slice_extra (scene_in self.now.canvas.now)) }
        ensures late { steps.new ≤ steps.old + slice_steps (scene_in self.now.canvas.now) buf.old.area }
    {
        let start = first_painted(self.canvas, buf.area(), steps);
        // For the proof alone: `tree` says that the scene is in order.
        let _tree = self.canvas.store().tree();
        paint(self.canvas, start, buf, steps);
    }
}

/// The number of the last entry that covers an area, or 0 if none does. Each object that is looked at is a
/// step.
fn first_painted<L: Ledger>(canvas: &Canvas, part: Area, steps: &mut Steps<L>) -> usize
    ensures within { result ≤ length (entries (scene_in canvas.now)) }
    ensures from { let scene = scene_in canvas.now in
        map (seen_entry scene) (drop result (entries scene))
        ≡ from_last (is_cover scene (rect_of part)) (map (seen_entry scene) (entries scene)) }
    ensures steps { steps.new ≤ steps.old + sum_by asked_steps (drop result (entries (scene_in canvas.now))) }
{
    let mut n = canvas.entry_count();
    while n > 0 {
        n -= 1;
        if covers_at(canvas, n, part, steps) {
            return n;
        }
    }
    0
}

/// Whether the nth of the entries that are painted covers an area. Bars cover nothing, and are no step.
fn covers_at<L: Ledger>(canvas: &Canvas, n: usize, part: Area, steps: &mut Steps<L>) -> bool
    requires { n < length (entries (scene_in canvas.now)) }
    ensures covers { let scene = scene_in canvas.now in
        result ≡ is_cover scene (rect_of part) (seen_entry scene (get_or (entries scene) n (own 0))) }
    ensures steps { steps.new ≤ steps.old + asked_steps (get_or (entries (scene_in canvas.now)) n (own 0)) }
{
    if canvas.is_bars_at(n) {
        return false;
    }
    match canvas.entry_at(n) {
        Some(entry) => covers_by(&entry, part, steps),
        None => false,
    }
}

/// Whether an entry covers an area, according to what is known of it.
fn covers_by<L: Ledger>(entry: &ShownEntry<'_>, part: Area, steps: &mut Steps<L>) -> bool
    ensures covers { result ≡ covers_known entry.now (rect_of part) }
    ensures steps { steps.new ≤ steps.old + asked_steps (entry_of entry.now) }
{
    if entry.is_bars {
        return false;
    }
    steps.tick();
    // Most objects are seen in less than a slice, and their items need not be made.
    match entry.visible() {
        Some(visible) => has_area(visible, part) && covers(visible, entry.items().as_slice(), part),
        None => false,
    }
}

/// Paints what is shown of a canvas over the pixels of the buffer, back to front, from the entry of a number
/// on.
fn paint<L: Ledger>(canvas: &Canvas, start: usize, buf: &mut DrawBuf, steps: &mut Steps<L>)
    requires { start ≤ length (entries (scene_in canvas.now)) }
    ensures painted { Paints buf.old buf.new
        (painted_all (scene_in canvas.now) (drop start (entries (scene_in canvas.now)))) }
    ensures steps { steps.new ≤ steps.old
        + sum_by (visit_steps (scene_in canvas.now) (size_of buf.old.area)) (drop start (entries (scene_in canvas.now))) }
{
    let (store, places) = canvas.shown();
    let shown = Shown { store, places };
    let mut text = ArrayVec::new();
    for n in start..canvas.entry_count() {
        steps.tick();
        if let Some(entry) = canvas.entry_at(n) {
            paint_entry(&shown, buf, &entry, &mut text, steps);
        }
    }
}

/// Paints an object that is there by itself, or its bars, where it is seen. `text` is room for a text.
fn paint_entry<L: Ledger>(
    shown: &Shown<'_>,
    buf: &mut DrawBuf,
    entry: &ShownEntry<'_>,
    text: &mut ArrayVec<u8, 1000>,
    steps: &mut Steps<L>,
)
    requires { IsKnown (scene_of shown.now.store.now) entry.now }
    ensures painted { Paints buf.old buf.new
        (painted_entry (scene_of shown.now.store.now) (entry_of entry.now)) }
    ensures steps { steps.new ≤ steps.old
        + entry_steps (scene_of shown.now.store.now) (size_of buf.old.area) (entry_of entry.now) }
{
    if entry.is_no_bars() {
        return;
    }
    let Some(visible) = entry.visible() else {
        return;
    };
    if visible.meet(buf.area()).is_empty() {
        return;
    }
    if entry.is_bars {
        let bars = entry.bars().items();
        shown.paint_known_bars(buf, visible, entry.h, bars.as_slice(), steps);
    } else if let Some(items) = entry.alone() {
        shown.paint_known(buf, visible, entry.h, &items, text, steps);
    } else {
        let items = entry.items();
        shown.paint_known(buf, visible, entry.h, items.as_slice(), text, steps);
    }
}

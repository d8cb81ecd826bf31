//! Painting a scene into a draw buffer.
ghost use Rattle.std.specs.Prelude.{◌≡◌, ◌≤◌, ◌+◌, ◌*◌, true, Some, [], ◌∷◌, if◌then◌else◌, sum_by, None};
ghost use Rattle.gui_base.specs.Area.{size_of};
ghost use Rattle.gui_base.specs.Corners.{rect_of};
ghost use Rattle.gui_base.specs.Forest.{size, tree_by};
ghost use Rattle.gui_color.specs.Buffer.{IsBlack};
ghost use Rattle.gui_draw.specs.Drawing.{ShowsColors};
ghost use Rattle.scene_defs.specs.Picture.{paint as paint_of};
ghost use Rattle.scene_defs.specs.Scene.{is_at};
ghost use Rattle.scene_defs.specs.Shown.{painted as all_painted};
ghost use Rattle.scene_defs.specs.Valid.{IsValid};
ghost use Rattle.cover_defs.specs.Steps.{bar_steps, object_count, object_steps, slice_steps, steps_of};
ghost use Rattle.cover_defs.specs.Walks.{from_handle};
ghost use Rattle.gui_store.specs.Views.{scene_of};
ghost use Rattle.gui_paint.specs.Painting.{Paints, painted_bars, painted_object};
ghost use Rattle.gui_paint.specs.Walking.{PaintsMet, StandsAt, bars_so, is_awaited, number_of, painted_each};
ghost use Rattle.gui_paint.specs.Walking.{seen_so, tree_walk};

use crate::items::paint_items;
use crate::shown::Shown;
use crate::walk::{SeenObject, panel, visit};
use arrayvec::ArrayVec;
use gui_base::{Area, Handle, Steps};
use gui_color::DrawBuf;
use gui_draw::Picture;
use gui_store::{SYSTEM_LAYER, TOP_LAYER};
use gui_widgets::items;
use std::sync::ledger::Ledger;

impl<'a> Picture for Shown<'a> {
    ghost use Rattle.scene_defs.specs.Picture.{paint};
    ghost use Rattle.cover_defs.specs.Cover.{items_shown};
    ghost use Rattle.cover_defs.specs.Steps.{slice_extra};

    ghost color = { λ s. paint (scene_of s.store.now) };

    ghost per_pixel = { λ s. items_shown (scene_of s.store.now) };

    ghost per_slice = { λ s. slice_extra (scene_of s.store.now) };

    /// Draws what the picture has in the buffer's area, from the last object on that covers it.
    fn slice<L: Ledger>(&self, buf: &mut DrawBuf, steps: &mut Steps<L>)
        requires { IsBlack buf.old }
        ensures colors { ShowsColors buf.old buf.new (paint_of (scene_of self.now.store.now)) }
        ensures steps { steps.new ≤ steps.old + (size_of buf.old.area
            * items_shown (scene_of self.now.store.now) + slice_extra (scene_of self.now.store.now)) }
        ensures late { steps.new ≤ steps.old + slice_steps (scene_of self.now.store.now) buf.old.area }
    {
        // For the proof alone: `tree` says that the scene is in order.
        let _tree = self.store.tree();
        let start = self.cover_start(buf.area(), steps);
        paint(self, buf, start, steps);
    }
}

/// Paints what is shown of a scene over the pixels of the buffer, from an object on, or all if that is `None`.
fn paint<L: Ledger>(shown: &Shown, buf: &mut DrawBuf, start: Option<Handle>, steps: &mut Steps<L>)
    ensures painted { Paints buf.old buf.new
        (painted_each (from_handle (number_of start) (all_painted (scene_of shown.now.store.now)))) }
    ensures steps { let scene = scene_of shown.now.store.now in
        steps.new ≤ steps.old + (2 * object_count scene
        + sum_by (steps_of scene (size_of buf.old.area)) (from_handle (number_of start) (all_painted scene))) }
{
    let clip = panel(shown);
    let screen = shown.store.active();
    let mut progress = Progress {
        start,
        text: ArrayVec::new(),
    };
    paint_tree(shown, buf, clip, screen, &mut progress, steps);
    paint_tree(shown, buf, clip, TOP_LAYER, &mut progress, steps);
    paint_tree(shown, buf, clip, SYSTEM_LAYER, &mut progress, steps);
}

/// How far painting has come: the object that it begins with, or `None` once it has begun. And room for a text.
#[derive(Drop)]
struct Progress {
    start: Option<Handle>,
    text: ArrayVec<u8, 1000>,
}

/// Paints an object and all below it, and its bars over that, or of these what comes from the object on that
/// painting begins with. The clip is what is seen of its parent.
fn paint_tree<L: Ledger>(
    shown: &Shown,
    buf: &mut DrawBuf,
    clip: Area,
    h: Handle,
    progress: &mut Progress,
    steps: &mut Steps<L>,
)
    ensures { let scene = scene_of shown.now.store.now in
        PaintsMet scene (tree_walk scene (rect_of clip) h.0)
        (number_of progress.old.start) (number_of progress.new.start)
        buf.old buf.new (2 * size (tree_by (is_at h.0) scene.trees)) steps.old steps.new }
{
    let tree = shown.store.tree();
    let Some(seen) = visit(shown, clip, h, steps) else {
        return;
    };
    paint_next(shown, buf, seen, h, progress, steps);
    for child in tree.children(h) {
        paint_tree(shown, buf, seen.visible, child, progress, steps);
    }
    paint_next_bars(shown, buf, seen.visible, h, progress.start, steps);
}

/// Paints an object by itself where it is seen, once painting begins with it or began before.
fn paint_next<L: Ledger>(
    shown: &Shown,
    buf: &mut DrawBuf,
    seen: SeenObject,
    h: Handle,
    progress: &mut Progress,
    steps: &mut Steps<L>,
)
    requires valid { IsValid (scene_of shown.now.store.now) }
    requires stands { StandsAt (scene_of shown.now.store.now) h.0 (rect_of seen.place) }
    ensures { let scene = scene_of shown.now.store.now in
        PaintsMet scene (seen_so scene (rect_of seen.visible) h.0 ∷ [])
        (number_of progress.old.start) (number_of progress.new.start)
        buf.old buf.new 0 steps.old steps.new }
{
    if !has_begun(&mut progress.start, h) {
        return;
    }
    if !seen.visible.meet(buf.area()).is_empty() {
        paint_object(shown, buf, seen, h, &mut progress.text, steps);
    }
}

/// Paints the bars of an object where they are seen, which is a step, once `start` waits for none.
fn paint_next_bars<L: Ledger>(
    shown: &Shown,
    buf: &mut DrawBuf,
    visible: Area,
    h: Handle,
    start: Option<Handle>,
    steps: &mut Steps<L>,
)
    ensures { let scene = scene_of shown.now.store.now in
        PaintsMet scene (bars_so scene (rect_of visible) h.0 ∷ []) (number_of start) (number_of start)
        buf.old buf.new 1 steps.old steps.new }
{
    steps.tick();
    if start.is_some() {
        return;
    }
    if !visible.meet(buf.area()).is_empty() {
        paint_bars(shown, buf, visible, h, steps);
    }
}

/// Whether painting begins with an object, or began before: `start` waits for it or for none, and then it
/// waits no more.
fn has_begun(start: &mut Option<Handle>, h: Handle) -> bool
    ensures begun { result ≡ is_awaited (number_of start.old) h.0 }
    ensures waits { number_of start.new
        ≡ (if is_awaited (number_of start.old) h.0 then None else number_of start.old) }
{
    let begun = match *start {
        Some(first) => h.0 == first.0,
        None => true,
    };
    if begun {
        *start = None;
    }
    begun
}

/// Paints the items of an object where they are seen. Its text is put into `text`.
pub(crate) fn paint_object<L: Ledger>(
    shown: &Shown,
    buf: &mut DrawBuf,
    seen: SeenObject,
    h: Handle,
    text: &mut ArrayVec<u8, 1000>,
    steps: &mut Steps<L>,
)
    requires valid { IsValid (scene_of shown.now.store.now) }
    requires stands { StandsAt (scene_of shown.now.store.now) h.0 (rect_of seen.place) }
    ensures painted { Paints buf.old buf.new
        (painted_object (scene_of shown.now.store.now) (rect_of seen.visible) h.0) }
    ensures steps { steps.new ≤ steps.old
        + object_steps (scene_of shown.now.store.now) (size_of buf.old.area) h.0 }
{
    let store = shown.store;
    let look = shown.places.paint_look(store, h, text);
    let items = items(&look, seen.place);
    paint_items(buf, seen.visible, items.as_slice(), store, look.text, steps);
}

/// Paints the bars of an object where they are seen.
pub(crate) fn paint_bars<L: Ledger>(
    shown: &Shown,
    buf: &mut DrawBuf,
    visible: Area,
    h: Handle,
    steps: &mut Steps<L>,
)
    ensures painted { Paints buf.old buf.new
        (painted_bars (scene_of shown.now.store.now) (rect_of visible) h.0) }
    ensures steps { steps.new ≤ steps.old
        + bar_steps (scene_of shown.now.store.now) (size_of buf.old.area) h.0 }
{
    let bars = shown.places.bars(shown.store, h);
    shown.paint_known_bars(buf, visible, h, bars.as_slice(), steps);
}

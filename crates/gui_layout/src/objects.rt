//! The boxes of the objects of a store.
ghost use Rattle.std.specs.Prelude.{◌≡◌, ◌≤◌, ◌≤ℤ◌, true, Some, pos, negsuc};
ghost use Rattle.gui_base.specs.Props.{is_value, values_of};
ghost use Rattle.gui_base.specs.Area.{nat_of};
ghost use Rattle.gui_base.specs.Intervals.{is_within};
ghost use Rattle.gui_base.specs.declared.intervals.TheConstants.{COORDINATE, PAD, SCROLL};
ghost use Rattle.gui_base.specs.declared.props.Prop.TheVariants.{BorderWidth, PadTop, PadBottom, PadLeft};
ghost use Rattle.gui_base.specs.declared.props.Prop.TheVariants.{PadRight};
ghost use Rattle.gui_base.specs.declared.words.Part.TheVariants.{Main};
ghost use Rattle.layout_defs.specs.Boxes.{inner};
ghost use Rattle.layout_defs.specs.OwnHeights.{but_height};
ghost use Rattle.scene_defs.specs.Place.{box_of as object_box, pixels_of, inset_of};
ghost use Rattle.scene_defs.specs.Row.{shown_row};
ghost use Rattle.scene_defs.specs.Scene.{row_at, value};
ghost use Rattle.scene_defs.specs.Valid.{IsRow};
ghost use Rattle.gui_flex.specs.Items.{placings_of};
ghost use Rattle.gui_store.specs.Views.{scene_of};
ghost use Rattle.gui_boxes.specs.Views.{axis_of, box_of};
ghost use Rattle.gui_layout.specs.Scenes.{object_with, scene_box};
ghost use Rattle.gui_layout.specs.Own.{has_own_size};

use crate::looks::look_in;
use arrayvec::ArrayVec;
use gui_base::{Flag, Handle, Kind, Part, Prop};
use gui_boxes::along::inner;
use gui_boxes::axis::Axis;
use gui_boxes::boxes::{empty_box, side_across, side_down};
use gui_boxes::entry::Entry;
use gui_boxes::layout_box::LayoutBox;
use gui_flex::FlexPlaces;
use gui_kinds::{has_size, shows};
use gui_store::{Row, Store};
use gui_widgets::{own_height, own_width};

/// A value of an object that has this row. None lies below 0.
fn number(store: &Store, h: Handle, row: &Row, prop: Prop) -> u32
    requires { Some (shown_row row.now) ≡ row_at (scene_of store.now) h.0 }
    ensures value { value (scene_of store.now) h.0 Main prop ≡ pos result }
    ensures in_range { is_value prop (pos result) ≡ true }
{
    store.value_by_row(h, row, Part::Main, prop).unsigned_abs()
}

/// The width of an object's border, in pixels.
fn border(store: &Store, h: Handle, row: &Row) -> u16
    requires { Some (shown_row row.now) ≡ row_at (scene_of store.now) h.0 }
    ensures value { result ≡ pixels_of (scene_of store.now) h.0 BorderWidth }
    ensures small { result ≤ 100 }
{
    number(store, h, row, Prop::BorderWidth) as u16
}

/// A pad or a gap of an object, in pixels.
fn pad(store: &Store, h: Handle, row: &Row, prop: Prop) -> u16
    requires row { Some (shown_row row.now) ≡ row_at (scene_of store.now) h.0 }
    requires pad { values_of prop ≡ PAD }
    ensures value { result ≡ pixels_of (scene_of store.now) h.0 prop }
    ensures small { result ≤ 1000 }
{
    number(store, h, row, prop) as u16
}

/// How far the content of an object with such a border is from one side of its place.
fn inset(store: &Store, h: Handle, row: &Row, border: u16, side: Prop) -> u16
    requires row { Some (shown_row row.now) ≡ row_at (scene_of store.now) h.0 }
    requires border { border ≡ pixels_of (scene_of store.now) h.0 BorderWidth }
    requires small_border { border ≤ 100 }
    requires pad { values_of side ≡ PAD }
    ensures value { result ≡ inset_of (scene_of store.now) h.0 side }
    ensures small { result ≤ 1100 }
{
    border + pad(store, h, row, side)
}

/// The placings of an object's flow.
fn placings(row: &Row) -> FlexPlaces
    requires { IsRow row.now }
    ensures { placings_of result
        ≡ record { main = row.now.places.0; cross = row.now.places.1; track = row.now.places.2 } }
{
    let (main, cross, track) = row.places;
    FlexPlaces { main, cross, track }
}

/// Whether objects of a kind have a size of their own.
fn has_own_size(kind: Kind) -> bool
    ensures { result ≡ has_own_size kind }
{
    has_size(shows(kind))
}

/// The width of what an object with this row shows, in pixels. It is not inlined: a look takes much room,
/// which a function that holds one clears at each call.
#[inline(never)]
fn shown_width(store: &Store, h: Handle, row: &Row) -> u32
    requires row { Some (shown_row row.now) ≡ row_at (scene_of store.now) h.0 }
    requires in_range { IsRow row.now }
    ensures value { let scene = scene_of store.now in
        result ≡ (object_box scene (object_with scene h.0 (shown_row row.now))).own_width }
    ensures small { result ≤ 1000000 }
{
    let mut text = ArrayVec::new();
    own_width(&look_in(store, h, row, &mut text)).unsigned_abs()
}

/// The own width of what an object with this row shows, in pixels.
fn own_width_of(store: &Store, h: Handle, row: &Row) -> u32
    requires row { Some (shown_row row.now) ≡ row_at (scene_of store.now) h.0 }
    requires in_range { IsRow row.now }
    ensures value { let scene = scene_of store.now in
        result ≡ (object_box scene (object_with scene h.0 (shown_row row.now))).own_width }
    ensures small { result ≤ 1000000 }
{
    if !has_own_size(row.kind) {
        return 0;
    }
    shown_width(store, h, row)
}

/// The height of what an object with this row shows in a content area that is so wide, in pixels. It is not
/// inlined, as the width is not.
#[inline(never)]
fn shown_height(store: &Store, h: Handle, row: &Row, room: u16) -> u32
    requires row { Some (shown_row row.now) ≡ row_at (scene_of store.now) h.0 }
    requires in_range { IsRow row.now }
    ensures value { result ≡ (scene_box (scene_of store.now) h.0).own_height room }
    ensures small { result ≤ 1000000 }
{
    let mut text = ArrayVec::new();
    own_height(&look_in(store, h, row, &mut text), i32::from(room)).unsigned_abs()
}

/// The own height of what an object with this entry shows at the width that was found, in pixels: 0 where the
/// object is not there.
pub(crate) fn own_height_of(store: &Store, h: Handle, own: &Entry) -> u32
    ensures value { result ≡ (scene_box (scene_of store.now) h.0).own_height
        (inner (axis_of own.now.wanted.across) own.now.width.pixels) }
    ensures small { result ≤ 1000000 }
{
    match store.row(h) {
        Some(row) if has_own_size(row.kind) => {
            let room = inner(&own.wanted.across, own.width.pixels);
            shown_height(store, h, row, room)
        }
        _ => 0,
    }
}

/// How far an object is to scroll its children in one direction, in pixels.
fn stored_scroll(stored: i32) -> u16
    requires { is_within SCROLL stored ≡ true }
    ensures value { result ≡ nat_of stored }
    ensures small { result ≤ 8191 }
{
    stored as u16
}

/// How far an object is to stand from where its side puts it, in pixels.
fn stored_place(stored: i32) -> i16
    requires { is_within COORDINATE stored ≡ true }
    ensures value { result ≡ stored }
    ensures least { negsuc 3999 ≤ℤ result }
    ensures most { result ≤ℤ pos 4000 }
{
    stored as i16
}

/// The box of an object that has this row, before its own height is known.
fn row_box(store: &Store, h: Handle, row: &Row) -> LayoutBox
    requires row { Some (shown_row row.now) ≡ row_at (scene_of store.now) h.0 }
    requires in_range { IsRow row.now }
    ensures { but_height (box_of h.0 result) ≡ but_height
        (object_box (scene_of store.now) (object_with (scene_of store.now) h.0 (shown_row row.now))) }
{
    let border = border(store, h, row);
    LayoutBox {
        across: Axis {
            size: row.width,
            wanted: stored_place(row.x),
            before: inset(store, h, row, border, Prop::PadLeft),
            after: inset(store, h, row, border, Prop::PadRight),
            gap: pad(store, h, row, Prop::PadColumn),
            side: side_across(row.align),
            scroll: stored_scroll(row.scroll_x),
        },
        down: Axis {
            size: row.height,
            wanted: stored_place(row.y),
            before: inset(store, h, row, border, Prop::PadTop),
            after: inset(store, h, row, border, Prop::PadBottom),
            gap: pad(store, h, row, Prop::PadRow),
            side: side_down(row.align),
            scroll: stored_scroll(row.scroll_y),
        },
        own_width: own_width_of(store, h, row),
        own_height: 0,
        hidden: row.is_on(Flag::Hidden),
        flow: row.flow,
        places: placings(row),
        grow: row.grow,
        scrollable: row.is_on(Flag::Scrollable),
    }
}

/// The box of an object, before its own height is known: one of no size where it is not there.
pub(crate) fn box_in(store: &Store, h: Handle) -> LayoutBox
    ensures { but_height (box_of h.0 result) ≡ but_height (scene_box (scene_of store.now) h.0) }
{
    match store.row(h) {
        Some(row) => row_box(store, h, row),
        None => empty_box(),
    }
}

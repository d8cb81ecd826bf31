//! Objects as their items show them.
ghost use Rattle.std.specs.Prelude.{◌≡◌, Some, true, option_map};
ghost use Rattle.gui_base.specs.declared.props.Prop.{Prop as Property};
ghost use Rattle.gui_base.specs.declared.words.Part.TheVariants.{Main, Scrollbar};
ghost use Rattle.scene_defs.specs.Edits.{text_at};
ghost use Rattle.scene_defs.specs.Looks.{look_of, image_look};
ghost use Rattle.scene_defs.specs.Row.{shown_row};
ghost use Rattle.scene_defs.specs.Scene.{is_there, object_at, row_at, value};
ghost use Rattle.scene_defs.specs.Texts.{is_text};
ghost use Rattle.scene_defs.specs.Valid.{IsRow};
ghost use Rattle.widget_defs.specs.Looks.{AreValues, value_in};
ghost use Rattle.gui_store.specs.Views.{scene_of};
ghost use Rattle.gui_widgets.specs.Looks.{IsLook, widget_of};
ghost use Rattle.gui_layout.specs.Painted.{FillsAs, PaintsLike};
ghost use Rattle.gui_layout.specs.Painted.{paints_content, paints_indicator, paints_knob};

use arrayvec::ArrayVec;
use gui_base::{Flag, Handle, Kind, Part, Prop};
use gui_font::Images;
use gui_kinds::{has_indicator, has_knob, is_something, shows};
use gui_store::{Row, Store};
use gui_widgets::{ImageLook, Look, Values};

/// The value of each property of a part of an object that has this row.
fn values(store: &Store, h: Handle, row: &Row, part: Part) -> Values
    requires { Some (shown_row row.now) ≡ row_at (scene_of store.now) h.0 }
    ensures values { (prop : Property) → value_in result prop ≡ value (scene_of store.now) h.0 part prop }
    ensures in_range { AreValues (value_in result) }
{
    Values([
        store.value_by_row(h, row, part, Prop::BgColor),
        store.value_by_row(h, row, part, Prop::BgOpa),
        store.value_by_row(h, row, part, Prop::BorderColor),
        store.value_by_row(h, row, part, Prop::BorderOpa),
        store.value_by_row(h, row, part, Prop::BorderWidth),
        store.value_by_row(h, row, part, Prop::PadTop),
        store.value_by_row(h, row, part, Prop::PadBottom),
        store.value_by_row(h, row, part, Prop::PadLeft),
        store.value_by_row(h, row, part, Prop::PadRight),
        store.value_by_row(h, row, part, Prop::PadRow),
        store.value_by_row(h, row, part, Prop::PadColumn),
        store.value_by_row(h, row, part, Prop::ImgRecolor),
        store.value_by_row(h, row, part, Prop::ImgOpa),
        store.value_by_row(h, row, part, Prop::TextColor),
        store.value_by_row(h, row, part, Prop::TextOpa),
        store.value_by_row(h, row, part, Prop::TextFont),
        store.value_by_row(h, row, part, Prop::TextAlign),
        store.value_by_row(h, row, part, Prop::TextLetterSpace),
        store.value_by_row(h, row, part, Prop::TextLineSpace),
    ])
}

/// Values that are not looked up.
const UNASKED: Values = Values([0; 19]);

/// Whether objects of a kind paint something in their content area.
fn paints_content(kind: Kind) -> bool
    ensures { result ≡ paints_content kind }
{
    is_something(shows(kind))
}

/// Whether they paint their indicator.
fn paints_indicator(kind: Kind) -> bool
    ensures { result ≡ paints_indicator kind }
{
    has_indicator(shows(kind))
}

/// Whether they paint their knob.
fn paints_knob(kind: Kind) -> bool
    ensures { result ≡ paints_knob kind }
{
    has_knob(shows(kind))
}

/// The values that the fill and the border of a part go by. No other is looked up.
fn fill_values(store: &Store, h: Handle, row: &Row, part: Part) -> Values
    requires { Some (shown_row row.now) ≡ row_at (scene_of store.now) h.0 }
    ensures fills { FillsAs (value_in result) (value (scene_of store.now) h.0 part) }
    ensures in_range { AreValues (value_in result) }
{
    let mut values = UNASKED;
    values.0[0] = store.value_by_row(h, row, part, Prop::BgColor);
    values.0[1] = store.value_by_row(h, row, part, Prop::BgOpa);
    values.0[2] = store.value_by_row(h, row, part, Prop::BorderColor);
    values.0[3] = store.value_by_row(h, row, part, Prop::BorderOpa);
    values.0[4] = store.value_by_row(h, row, part, Prop::BorderWidth);
    values
}

/// The values of an object's own part that its items go by.
fn main_values(store: &Store, h: Handle, row: &Row) -> Values
    requires { Some (shown_row row.now) ≡ row_at (scene_of store.now) h.0 }
    ensures fills { FillsAs (value_in result) (value (scene_of store.now) h.0 Main) }
    ensures all { paints_content row.now.kind ≡ true →
        (prop : Property) → value_in result prop ≡ value (scene_of store.now) h.0 Main prop }
    ensures in_range { AreValues (value_in result) }
{
    if paints_content(row.kind) {
        values(store, h, row, Part::Main)
    } else {
        fill_values(store, h, row, Part::Main)
    }
}

/// The values of another part that items go by, where it is painted.
fn part_values(store: &Store, h: Handle, row: &Row, part: Part, is_painted: bool) -> Values
    requires { Some (shown_row row.now) ≡ row_at (scene_of store.now) h.0 }
    ensures fills { is_painted ≡ true → FillsAs (value_in result) (value (scene_of store.now) h.0 part) }
    ensures in_range { AreValues (value_in result) }
{
    if is_painted {
        fill_values(store, h, row, part)
    } else {
        UNASKED
    }
}

/// The image that an object shows with its size, if it shows one that is finished.
fn image_look(images: &Images, image: Option<u16>) -> Option<ImageLook>
    ensures { result ≡ image_look images.now.images image }
{
    let id = image?;
    let (w, h) = images.size(id)?;
    Some(ImageLook { id, w, h })
}

/// The text of an object that is there, whose bytes are written into `room`.
fn text_of<'a>(store: &Store, h: Handle, room: &'a mut ArrayVec<u8, 1000>) -> &'a str
    requires { is_there (scene_of store.now) h.0 ≡ true }
    ensures text { result.now ≡ text_at (scene_of store.now) h.0 }
    ensures valid { is_text result.now ≡ true }
{
    store.text_into(h, room);
    match std::str::from_utf8(room.as_slice()) {
        Ok(text) => text,
        Err(_) => unreachable!(),
    }
}

/// An object that has this row as its items show it, with its text in `room`.
pub(crate) fn look_in<'a>(
    store: &'a Store,
    h: Handle,
    row: &Row,
    room: &'a mut ArrayVec<u8, 1000>,
) -> Look<'a>
    requires row { Some (shown_row row.now) ≡ row_at (scene_of store.now) h.0 }
    requires in_range { IsRow row.now }
    ensures look { IsLook result }
    ensures shows { Some (widget_of result)
        ≡ option_map (look_of (scene_of store.now)) (object_at (scene_of store.now) h.0) }
    ensures scrollbar { (prop : Property) →
        value_in result.scrollbar prop ≡ value (scene_of store.now) h.0 Scrollbar prop }
{
    Look {
        kind: row.kind,
        main: values(store, h, row, Part::Main),
        scrollbar: values(store, h, row, Part::Scrollbar),
        indicator: values(store, h, row, Part::Indicator),
        knob: values(store, h, row, Part::Knob),
        text: text_of(store, h, room),
        value: row.value,
        min: row.min,
        max: row.max,
        image: image_look(store.images(), row.image),
        scrollable: row.is_on(Flag::Scrollable),
        reach: (0, 0),
        offset: (0, 0),
        fonts: store.fonts(),
    }
}

/// An object that has this row with what its items go by, and its text in `room`. No other value is looked
/// up.
pub(crate) fn paint_look_in<'a>(
    store: &'a Store,
    h: Handle,
    row: &Row,
    room: &'a mut ArrayVec<u8, 1000>,
) -> Look<'a>
    requires row { Some (shown_row row.now) ≡ row_at (scene_of store.now) h.0 }
    requires in_range { IsRow row.now }
    ensures look { IsLook result }
    ensures paints { PaintsLike (scene_of store.now) h.0 (widget_of result) }
{
    let kind = row.kind;
    Look {
        kind,
        main: main_values(store, h, row),
        scrollbar: part_values(store, h, row, Part::Scrollbar, false),
        indicator: part_values(store, h, row, Part::Indicator, paints_indicator(kind)),
        knob: part_values(store, h, row, Part::Knob, paints_knob(kind)),
        text: text_of(store, h, room),
        value: row.value,
        min: row.min,
        max: row.max,
        image: image_look(store.images(), row.image),
        scrollable: row.is_on(Flag::Scrollable),
        reach: (0, 0),
        offset: (0, 0),
        fonts: store.fonts(),
    }
}

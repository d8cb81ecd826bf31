//! What objects paint.
ghost use Rattle.std.specs.Prelude.{◌≡◌, ◌≤◌, ◌+◌, None, Some, [], ◌∷◌, ◌++◌};
ghost use Rattle.std.specs.List.{All};
ghost use Rattle.arrayvec.specs.ArrayVec.{array_vec_len};
ghost use Rattle.gui_base.specs.Area.{width_of};
ghost use Rattle.gui_base.specs.Corners.{rect_of};
ghost use Rattle.gui_widgets.specs.Looks.{IsLook, widget_of, item_of, items_of};
ghost use Rattle.gui_widgets.specs.Nears.{IsPlace, IsContent};
ghost use Rattle.gui_widgets.specs.Texts.{IsTextIn, IsCaption, widest_text};
ghost use Rattle.widget_defs.specs.Items.{items, part_of, fill_of, ring_of, ink_of, picture_of};
ghost use Rattle.widget_defs.specs.Items.{content_items, share_of, share_area, knob_area, box_area};
ghost use Rattle.widget_defs.specs.Items.{caption_area};
ghost use Rattle.widget_defs.specs.Looks.{AreValues, value_in, text_look, left_look};
ghost use Rattle.widget_defs.specs.Sizes.{text_size};

use crate::areas::{content_of, first_part, later_part};
use crate::look::{Item, Look};
use crate::sizes::{box_side, text_offset, text_size};
use crate::values::{byte, color, left_look, text_look};
use arrayvec::ArrayVec;
use gui_base::{Area, Prop};
use gui_font::TextLook;
use gui_kinds::shows;
use widget_defs::kinds::Shown;
use widget_defs::{ImageLook, ItemPaint, Values};

/// All that an object paints if it stands in a place, from back to front. Its text can be drawn: it is set no
/// wider than the place, or than a text can be.
pub fn items(look: &Look<'_>, place: Area) -> ArrayVec<Item, 6>
    requires look { IsLook look.now }
    requires place { IsPlace (rect_of place) }
    ensures items { items_of result.items ≡ items (widget_of look.now) (rect_of place) }
    ensures texts { All (IsTextIn (width_of (rect_of place))) (items (widget_of look.now) (rect_of place)) }
{
    let mut items = ArrayVec::new();
    push_part(&mut items, place, &look.main);
    push_content(&mut items, look, content_of(place, &look.main));
    items
}

/// Puts what the kind of an object paints in its content area behind its own part.
fn push_content(items: &mut ArrayVec<Item, 6>, look: &Look<'_>, content: Area)
    requires look { IsLook look.now }
    requires content { IsContent (rect_of content) }
    requires few { array_vec_len items.old ≤ 2 }
    ensures items { items_of items.new.items
        ≡ items_of items.old.items ++ content_items look.now.kind (widget_of look.now) (rect_of content) }
    ensures caption { IsCaption (widget_of look.now) }
{
    match shows(look.kind) {
        Shown::Nothing => {}
        Shown::Text => items.push(ink(content, &look.main, text_look(&look.main))),
        Shown::Picture => {
            if let Some(image) = look.image {
                items.push(picture(image, &look.main, content));
            }
        }
        Shown::Share => push_part(items, share_area(look, content), &look.indicator),
        Shown::ShareAndKnob => {
            push_part(items, share_area(look, content), &look.indicator);
            push_part(items, knob_area(look, content), &look.knob);
        }
        Shown::BoxAndText => {
            push_part(items, box_area(look, content), &look.indicator);
            items.push(ink(
                caption_area(look, content),
                &look.main,
                left_look(&look.main),
            ));
        }
    }
}

/// Puts a part behind the others: its fill, and the ring of its border.
fn push_part(items: &mut ArrayVec<Item, 6>, area: Area, values: &Values)
    requires values { AreValues (value_in values.now) }
    requires few { array_vec_len items.old ≤ 4 }
    ensures items { items_of items.new.items
        ≡ items_of items.old.items ++ part_of (rect_of area) (value_in values.now) }
    ensures len { array_vec_len items.new ≡ array_vec_len items.old + 2 }
{
    items.push(fill(area, values));
    items.push(ring(area, values));
}

pub(crate) fn fill(area: Area, values: &Values) -> Item
    requires { AreValues (value_in values.now) }
    ensures { item_of result ≡ fill_of (rect_of area) (value_in values.now) }
{
    Item {
        area,
        paint: ItemPaint::Fill {
            color: color(values, Prop::BgColor),
            opa: byte(values, Prop::BgOpa),
        },
    }
}

fn ring(area: Area, values: &Values) -> Item
    requires { AreValues (value_in values.now) }
    ensures { item_of result ≡ ring_of (rect_of area) (value_in values.now) }
{
    Item {
        area,
        paint: ItemPaint::Ring {
            width: byte(values, Prop::BorderWidth),
            color: color(values, Prop::BorderColor),
            opa: byte(values, Prop::BorderOpa),
        },
    }
}

/// A text in an area, set so.
fn ink(area: Area, values: &Values, look: TextLook) -> Item
    requires { AreValues (value_in values.now) }
    ensures { item_of result ≡ ink_of (rect_of area) (value_in values.now) look }
{
    Item {
        area,
        paint: ItemPaint::Ink {
            look,
            color: color(values, Prop::TextColor),
            opa: byte(values, Prop::TextOpa),
        },
    }
}

/// An image at the top left of a content area, cut to it.
fn picture(image: ImageLook, values: &Values, content: Area) -> Item
    requires values { AreValues (value_in values.now) }
    requires content { IsContent (rect_of content) }
    ensures { item_of result ∷ [] ≡ picture_of (Some image) (value_in values.now) (rect_of content) }
{
    let width = u32::from(image.w).min(content.width());
    let height = u32::from(image.h).min(content.height());
    Item {
        area: first_part(content, width, height),
        paint: ItemPaint::Picture {
            image: image.id,
            recolor: color(values, Prop::ImgRecolor),
            opa: byte(values, Prop::ImgOpa),
        },
    }
}

/// Of so many pixels those that the value fills, as it lies in its range.
fn share_of(look: &Look<'_>, n: u32) -> u32
    requires { IsLook look.now }
    ensures value { result ≡ share_of (widget_of look.now) n }
    ensures within { result ≤ n }
{
    let part = (look.value - look.min).unsigned_abs();
    let all = (look.max - look.min).unsigned_abs();
    (u64::from(n) * u64::from(part) / u64::from(all)) as u32
}

/// The first columns of a content area, as the value fills them.
fn share_area(look: &Look<'_>, content: Area) -> Area
    requires look { IsLook look.now }
    requires content { IsContent (rect_of content) }
    ensures { rect_of result ≡ share_area (widget_of look.now) (rect_of content) }
{
    first_part(content, share_of(look, content.width()), content.height())
}

/// The square of a knob, where the value puts it.
fn knob_area(look: &Look<'_>, content: Area) -> Area
    requires look { IsLook look.now }
    requires content { IsContent (rect_of content) }
    ensures { rect_of result ≡ knob_area (widget_of look.now) (rect_of content) }
{
    let side = content.width().min(content.height());
    let left = share_of(look, content.width() - side);
    later_part(content, left, side, side)
}

/// The box of a checkbox.
fn box_area(look: &Look<'_>, content: Area) -> Area
    requires look { IsLook look.now }
    requires content { IsContent (rect_of content) }
    ensures { rect_of result ≡ box_area (widget_of look.now) (rect_of content) }
{
    let side = box_side(look).unsigned_abs();
    first_part(content, side, side)
}

/// The area of a checkbox's text, as large as it is if lines end at newlines alone.
fn caption_area(look: &Look<'_>, content: Area) -> Area
    requires look { IsLook look.now }
    requires content { IsContent (rect_of content) }
    ensures area { rect_of result ≡ caption_area (widget_of look.now) (rect_of content) }
    ensures narrow { (text_size (widget_of look.now) None).0 ≤ widest_text }
{
    let (width, height) = text_size(look, None);
    later_part(
        content,
        text_offset(look),
        width.unsigned_abs(),
        height.unsigned_abs(),
    )
}

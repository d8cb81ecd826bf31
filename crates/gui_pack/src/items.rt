//! The items of a record.
ghost use Rattle.std.specs.Prelude.{◌≡◌, ◌≤◌, ◌+◌, ◌++◌, [], ◌∷◌, IfSome, is_some};
ghost use Rattle.arrayvec.specs.ArrayVec.{array_vec_len};
ghost use Rattle.gui_base.specs.Corners.{rect_of};
ghost use Rattle.gui_pack.specs.Records.{is_alone, more_in, paints_in};
ghost use Rattle.gui_widgets.specs.Looks.{item_of, items_of};
ghost use Rattle.pack_defs.specs.Paints.{fill_item, image_item, items_in, more_items, part_items, ring_item, text_item};

use crate::record::{More, Paints};
use arrayvec::ArrayVec;
use gui_base::Area;
use gui_widgets::{Item, ItemPaint};
use pack_defs::{ImagePaint, PartPaint, TextPaint};

impl Paints {
    /// All that the object paints, from back to front.
    pub fn items(&self) -> ArrayVec<Item, 6>
        ensures { items_of result.items ≡ items_in (paints_in self.now) }
    {
        let mut items = ArrayVec::new();
        push_part(&mut items, self.place, &self.main);
        push_more(&mut items, &self.more);
        items
    }

    /// The fill and the border of an object that paints its own part alone, as most do. `None` for any other.
    pub fn alone(&self) -> Option<[Item; 2]>
        ensures alone { is_some result ≡ is_alone self.now.more }
        ensures items { IfSome result (λ items. items_of items ≡ items_in (paints_in self.now)) }
    {
        match self.more {
            More::Nothing => Some([fill(self.place, &self.main), ring(self.place, &self.main)]),
            _ => None,
        }
    }
}

/// Puts what stands beside the own part of an object behind the others.
fn push_more(items: &mut ArrayVec<Item, 6>, more: &More)
    requires few { array_vec_len items.old ≤ 2 }
    ensures { items_of items.new.items ≡ items_of items.old.items ++ more_items (more_in more.now) }
{
    match more {
        More::Nothing => {}
        More::Text { area, text } => items.push(ink(*area, text)),
        More::Image { area, image } => items.push(picture(*area, image)),
        More::Part { area, part } => push_part(items, *area, part),
        More::TwoParts {
            area,
            part,
            other_area,
            other,
        } => {
            push_part(items, *area, part);
            push_part(items, *other_area, other);
        }
        More::PartText {
            area,
            part,
            text_area,
            text,
        } => {
            push_part(items, *area, part);
            items.push(ink(*text_area, text));
        }
    }
}

/// Puts a part behind the others: its fill, and the ring of its border.
fn push_part(items: &mut ArrayVec<Item, 6>, area: Area, part: &PartPaint)
    requires few { array_vec_len items.old ≤ 4 }
    ensures items { items_of items.new.items
        ≡ items_of items.old.items ++ part_items (rect_of area) part.now }
    ensures len { array_vec_len items.new ≡ array_vec_len items.old + 2 }
{
    items.push(fill(area, part));
    items.push(ring(area, part));
}

fn fill(area: Area, part: &PartPaint) -> Item
    ensures { item_of result ≡ fill_item (rect_of area) part.now }
{
    Item {
        area,
        paint: ItemPaint::Fill {
            color: part.fill,
            opa: part.fill_opa,
        },
    }
}

fn ring(area: Area, part: &PartPaint) -> Item
    ensures { item_of result ≡ ring_item (rect_of area) part.now }
{
    Item {
        area,
        paint: ItemPaint::Ring {
            width: part.width,
            color: part.ring,
            opa: part.ring_opa,
        },
    }
}

fn ink(area: Area, text: &TextPaint) -> Item
    ensures { item_of result ≡ text_item (rect_of area) text.now }
{
    Item {
        area,
        paint: ItemPaint::Ink {
            look: text.look,
            color: text.color,
            opa: text.opa,
        },
    }
}

fn picture(area: Area, image: &ImagePaint) -> Item
    ensures { item_of result ≡ image_item (rect_of area) image.now }
{
    Item {
        area,
        paint: ItemPaint::Picture {
            image: image.id,
            recolor: image.recolor,
            opa: image.opa,
        },
    }
}

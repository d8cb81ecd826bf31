//! Every kind at no size, at one pixel, and larger than a parent: how many items there are, and where the
//! last one stands.
ghost use Rattle.std.specs.Prelude.{◌≤◌};
ghost use Rattle.gui_widgets.specs.Looks.{IsLook};

use crate::checks::same;
use gui_base::{Area, Kind};
use gui_font::Fonts;
use gui_pack::paints;
use gui_widgets::{ImageLook, Item, Look, Values, items, own_height, own_width};
use std::alloc::Global;
use std::process::Abort;

/// The values of a part that sets nothing.
const PLAIN: Values = Values([
    0xFF_FFFF, 0, 0, 255, 0, 0, 0, 0, 0, 0, 0, 0, 255, 0, 255, 0, 0, 0, 0,
]);

/// How many items an object paints, and the corners of the last one's area.
type Last = (usize, [i32; 4]);

fn opened(rt: &impl Abort, alloc: Global) -> Fonts {
    Fonts::with_capacity(alloc, 0, 0, 0).expect(rt, "no memory")
}

/// An object of a kind with a text of two lines and an image of 2 by 3 pixels, halfway in its range.
fn look(kind: Kind, fonts: &Fonts) -> Look<'_>
    ensures { IsLook result }
{
    Look {
        kind,
        main: PLAIN,
        scrollbar: PLAIN,
        indicator: PLAIN,
        knob: PLAIN,
        text: "a\nbc",
        value: 50,
        min: 0,
        max: 100,
        image: Some(ImageLook { id: 1, w: 2, h: 3 }),
        scrollable: false,
        reach: (0, 0),
        offset: (0, 0),
        fonts,
    }
}

fn last_of(items: &[Item]) -> Last {
    let last = match items.last() {
        None => [0; 4],
        Some(item) => [item.area.x1, item.area.y1, item.area.x2, item.area.y2],
    };
    (items.len(), last)
}

fn last_in(kind: Kind, fonts: &Fonts, width: u32, height: u32) -> Last
    requires wide { width ≤ 3000 }
    requires high { height ≤ 3000 }
{
    let place = Area::at(0, 0, width, height);
    last_of(items(&look(kind, fonts), place).as_slice())
}

/// How many items a kind paints, and the last area, according to the record that is kept of what it paints.
fn last_kept(kind: Kind, fonts: &Fonts, width: u32, height: u32) -> Last
    requires wide { width ≤ 3000 }
    requires high { height ≤ 3000 }
{
    let place = Area::at(0, 0, width, height);
    last_of(paints(&look(kind, fonts), place).items().as_slice())
}

/// How many items each kind paints, and the last area of each.
fn lasts_in(fonts: &Fonts, width: u32, height: u32) -> [Last; 8]
    requires wide { width ≤ 3000 }
    requires high { height ≤ 3000 }
{
    [
        last_in(Kind::Obj, fonts, width, height),
        last_in(Kind::Label, fonts, width, height),
        last_in(Kind::Button, fonts, width, height),
        last_in(Kind::Image, fonts, width, height),
        last_in(Kind::Bar, fonts, width, height),
        last_in(Kind::Slider, fonts, width, height),
        last_in(Kind::Checkbox, fonts, width, height),
        last_in(Kind::List, fonts, width, height),
    ]
}

#[test]
fn kinds_at_no_size(rt: HostRuntime) {
    let fonts = opened(&rt, rt.alloc());
    let none = [0, 0, -1, -1];
    same(
        &rt,
        &lasts_in(&fonts, 0, 0),
        &[
            (2, none),
            (3, none),
            (2, none),
            (3, none),
            (4, none),
            (6, none),
            (5, [8, 0, 19, 15]),
            (2, none),
        ],
    );
}

#[test]
fn kinds_at_one_pixel(rt: HostRuntime) {
    let fonts = opened(&rt, rt.alloc());
    let one = [0, 0, 0, 0];
    same(
        &rt,
        &lasts_in(&fonts, 1, 1),
        &[
            (2, one),
            (3, one),
            (2, one),
            (3, one),
            (4, [0, 0, -1, 0]),
            (6, one),
            (5, [8, 0, 19, 15]),
            (2, one),
        ],
    );
}

#[test]
fn kinds_larger_than_a_parent(rt: HostRuntime) {
    let fonts = opened(&rt, rt.alloc());
    let all = [0, 0, 2999, 1999];
    same(
        &rt,
        &lasts_in(&fonts, 3000, 2000),
        &[
            (2, all),
            (3, all),
            (2, all),
            (3, [0, 0, 1, 2]),
            (4, [0, 0, 1499, 1999]),
            (6, [500, 0, 2499, 1999]),
            (5, [8, 0, 19, 15]),
            (2, all),
        ],
    );
}

#[test]
fn kinds_by_themselves(rt: HostRuntime) {
    let fonts = opened(&rt, rt.alloc());
    let size = |kind: Kind| {
        let look = look(kind, &fonts);
        (own_width(&look), own_height(&look, 5))
    };
    same(&rt, &size(Kind::Label), &(12, 24));
    same(&rt, &size(Kind::Image), &(2, 3));
    same(&rt, &size(Kind::Checkbox), &(20, 16));
    same(&rt, &size(Kind::Button), &(0, 0));
}

#[test]
fn each_kind_is_kept(rt: HostRuntime) {
    let fonts = opened(&rt, rt.alloc());
    let kinds = [
        Kind::Obj,
        Kind::Label,
        Kind::Button,
        Kind::Image,
        Kind::Bar,
        Kind::Slider,
        Kind::Checkbox,
        Kind::List,
    ];
    for kind in kinds {
        same(
            &rt,
            &last_kept(kind, &fonts, 100, 20),
            &last_in(kind, &fonts, 100, 20),
        );
    }
}

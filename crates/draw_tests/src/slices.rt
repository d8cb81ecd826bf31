//! A slice of one line against the same line of the whole.
ghost use Rattle.std.specs.Prelude.{◌<◌};

use crate::canvas::{Item, Shape, WHOLE, draw, opened};
use crate::checks::same_at;
use gui_base::{Area, Rgb565};
use gui_font::{Fonts, Format, Images};
use std::alloc::Global;
use std::process::Abort;

const BLUE: Rgb565 = Rgb565(0x001F);

/// An image of opacities.
fn images(rt: &impl Abort, alloc: Global) -> Images {
    let mut images = Images::with_capacity(alloc, 1, 9).expect(rt, "no memory");
    let answers = [
        images.begin(1, Format::Alpha, 3, 3),
        images.row(1, 0, &[0x10, 0x20, 0x30]),
        images.row(1, 1, &[0x40, 0x80, 0xC0]),
        images.row(1, 2, &[0xFF, 0xF0, 0x03]),
    ];
    same_at(rt, &"the image", &answers, &[Ok(()); 4]);
    images
}

/// One item of each kind, one over the other.
fn items<'a>(fonts: &'a Fonts, images: &'a Images) -> [Item<'a>; 4] {
    let text = Shape::Text {
        fonts,
        font: 0,
        text: "R",
    };
    [
        Item {
            shape: Shape::Fill,
            area: Area::at(1, 1, 5, 4),
            color: Rgb565(0xF800),
            opa: 128,
        },
        Item {
            shape: Shape::Ring { width: 1 },
            area: WHOLE,
            color: Rgb565(0x07E0),
            opa: 100,
        },
        Item {
            shape: text,
            area: WHOLE,
            color: BLUE,
            opa: 200,
        },
        Item {
            shape: Shape::Image { images, id: 1 },
            area: Area::at(4, 2, 3, 3),
            color: BLUE,
            opa: 255,
        },
    ]
}

/// A line of eight pixels.
fn line(colors: &[Rgb565], y: usize) -> &[Rgb565]
    requires { y < 6 }
{
    let at = 8 * y;
    if colors.len() < at + 8 {
        return &[];
    }
    &colors[at..at + 8]
}

/// Whether each line of items in a buffer of all lines is what they are in a buffer of that line alone.
fn check_lines(rt: &impl Abort, alloc: Global, items: &[Item<'_>]) {
    let mut whole = opened(rt, alloc, 48);
    draw(&mut whole, WHOLE, WHOLE, items);
    for y in 0..6u8 {
        let mut slice = opened(rt, alloc, 8);
        draw(&mut slice, Area::at(0, i32::from(y), 8, 1), WHOLE, items);
        same_at(
            rt,
            &y,
            &slice.pixels(),
            &line(whole.pixels(), usize::from(y)),
        );
    }
}

#[test]
fn a_slice_is_a_line_of_the_whole(rt: HostRuntime) {
    let fonts = Fonts::with_capacity(rt.alloc(), 0, 0, 0).expect(&rt, "no memory");
    let images = images(&rt, rt.alloc());
    check_lines(&rt, rt.alloc(), &items(&fonts, &images));
}

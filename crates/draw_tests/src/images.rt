//! Images.

use crate::canvas::{Item, Shape, WHOLE, draw, first_number, number_at, opened, white};
use crate::checks::{check_shades, same_at};
use gui_base::{Area, Rgb565};
use gui_font::{Format, Images};
use std::alloc::Global;
use std::process::Abort;

/// The images 1, two rows of three colours, and 2 to 4, one pixel each: white, an opacity, and red with one.
fn images(rt: &impl Abort, alloc: Global) -> Images {
    let mut images = Images::with_capacity(alloc, 4, 18).expect(rt, "no memory");
    let answers = [
        images.begin(1, Format::Rgb565, 3, 2),
        images.row(1, 0, &[0, 1, 0, 2, 0, 3]),
        images.row(1, 1, &[0, 4, 0, 5, 0, 6]),
        images.begin(2, Format::Rgb565, 1, 1),
        images.row(2, 0, &[0xFF, 0xFF]),
        images.begin(3, Format::Alpha, 1, 1),
        images.row(3, 0, &[0x80]),
        images.begin(4, Format::Rgb565Alpha, 1, 1),
        images.row(4, 0, &[0xF8, 0, 0x80]),
    ];
    same_at(rt, &"the images", &answers, &[Ok(()); 9]);
    images
}

/// The first image over black: the numbers of the first four pixels of two lines.
fn shown(rt: &impl Abort, alloc: Global, images: &Images, clip: Area, area: Area) -> [u16; 8] {
    let mut buf = opened(rt, alloc, 48);
    let shape = Shape::Image { images, id: 1 };
    draw(&mut buf, WHOLE, clip, &[white(shape, area)]);
    let colors = buf.pixels();
    [0, 1, 2, 3, 8, 9, 10, 11].map(|i| number_at(colors, i))
}

#[test]
fn images_are_cut_at_each_side(rt: HostRuntime) {
    let images = images(&rt, rt.alloc());
    for (clip, want) in [
        (WHOLE, [1, 2, 3, 0, 4, 5, 6, 0]),
        (Area::at(1, 0, 3, 3), [0, 2, 3, 0, 0, 5, 6, 0]),
        (Area::at(0, 0, 2, 3), [1, 2, 0, 0, 4, 5, 0, 0]),
        (Area::at(0, 1, 4, 2), [0, 0, 0, 0, 4, 5, 6, 0]),
        (Area::at(0, 0, 4, 1), [1, 2, 3, 0, 0, 0, 0, 0]),
    ] {
        let numbers = shown(&rt, rt.alloc(), &images, clip, WHOLE);
        same_at(&rt, &clip, &numbers, &want);
    }
}

#[test]
fn images_stand_at_the_top_left_of_their_area(rt: HostRuntime) {
    let images = images(&rt, rt.alloc());
    for (area, want) in [
        (Area::at(1, 1, 2, 1), [0, 0, 0, 0, 0, 1, 2, 0]),
        (Area::at(-1, -1, 5, 4), [5, 6, 0, 0, 0, 0, 0, 0]),
        (Area::at(1, 0, 0, 2), [0; 8]),
    ] {
        let numbers = shown(&rt, rt.alloc(), &images, WHOLE, area);
        same_at(&rt, &area, &numbers, &want);
    }
}

/// An image over all pixels with an opacity; if it has no colours it is red.
fn image(images: &Images, id: u16, opa: u8) -> Item<'_> {
    Item {
        shape: Shape::Image { images, id },
        area: WHOLE,
        color: Rgb565(0xF800),
        opa,
    }
}

#[test]
fn images_are_mixed_once(rt: HostRuntime) {
    let images = images(&rt, rt.alloc());
    check_shades(&rt, rt.alloc(), image(&images, 2, 255));
}

#[test]
fn texels_have_their_opacity(rt: HostRuntime) {
    let images = images(&rt, rt.alloc());
    let under = white(Shape::Fill, WHOLE);
    for (id, opa, want) in [
        (3, 255, 0xFBEF),
        (3, 128, 0xFDF7),
        (4, 255, 0xFBEF),
        (4, 128, 0xFDF7),
        (5, 255, 0xFFFF),
    ] {
        let number = first_number(&rt, rt.alloc(), &[under, image(&images, id, opa)]);
        same_at(&rt, &(id, opa), &number, &want);
    }
}

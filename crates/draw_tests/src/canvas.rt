//! What the tests draw on: a buffer of eight by six pixels.
ghost use Rattle.std.specs.Prelude.{◌≡◌, ◌<◌, ◌≤◌, false};
ghost use Rattle.gui_base.specs.Area.{is_empty, size_of};
ghost use Rattle.gui_base.specs.Corners.{rect_of};

use gui_base::{Area, Rgb565, Steps};
use gui_color::DrawBuf;
use gui_draw::{fill, ink, picture, ring};
use gui_font::{Fonts, Images, TextAlign, TextLook};
use std::alloc::Global;
use std::marker::Brand;
use std::process::Abort;
use std::sync::ledger::{Blank, Ledger};

/// All its pixels.
pub(crate) const WHOLE: Area = Area {
    x1: 0,
    y1: 0,
    x2: 7,
    y2: 5,
};

/// What opacities make of white over black.
pub(crate) const SHADES: [(u8, u16); 5] = [
    (3, 0),
    (4, 0x0020),
    (251, 0xF7BE),
    (252, 0xFFFF),
    (255, 0xFFFF),
];

/// What is drawn: the calls' own words, with a colour and an opacity.
#[derive(Clone, Copy)]
pub(crate) struct Item<'a> {
    pub(crate) shape: Shape<'a>,
    pub(crate) area: Area,
    pub(crate) color: Rgb565,
    pub(crate) opa: u8,
}

#[derive(Clone, Copy)]
pub(crate) enum Shape<'a> {
    Fill,
    Ring {
        width: u8,
    },
    Text {
        fonts: &'a Fonts,
        font: u8,
        text: &'a str,
    },
    Image {
        images: &'a Images,
        id: u16,
    },
}

/// A shape in opaque white.
pub(crate) fn white(shape: Shape<'_>, area: Area) -> Item<'_> {
    Item {
        shape,
        area,
        color: Rgb565::WHITE,
        opa: 255,
    }
}

/// Draws items over black, one after the other.
pub(crate) fn draw(buf: &mut DrawBuf, area: Area, clip: Area, items: &[Item<'_>])
    requires some { is_empty (rect_of area) ≡ false }
    requires fits { size_of (rect_of area) ≤ buf.old.limit }
{
    draw_counted::<Brand>(buf, Blank::new(1), area, clip, items);
}

fn draw_counted<L: Ledger>(
    buf: &mut DrawBuf,
    blank: Blank,
    area: Area,
    clip: Area,
    items: &[Item<'_>],
)
    requires some { is_empty (rect_of area) ≡ false }
    requires fits { size_of (rect_of area) ≤ buf.old.limit }
    requires name { blank.name ≡ L.name }
    requires parts { blank.parts ≡ L.parts }
    requires part { 0 < blank.parts }
{
    let (book, all) = blank.open::<L>();
    let mut steps = Steps::new(book, all);
    buf.begin(area, &mut steps);
    for item in items {
        draw_item(buf, clip, *item, &mut steps);
    }
}

fn draw_item<L: Ledger>(buf: &mut DrawBuf, clip: Area, item: Item<'_>, steps: &mut Steps<L>) {
    let (area, color, opa) = (item.area, item.color, item.opa);
    match item.shape {
        Shape::Fill => fill(buf, clip, area, color, opa, steps),
        Shape::Ring { width } => ring(buf, clip, area, width, color, opa, steps),
        Shape::Text { fonts, font, text } => {
            let look = TextLook {
                font,
                letter: 0,
                line: 0,
                align: TextAlign::Left,
            };
            if fonts.finished(font) == Some(true) && text.len() <= 1000 && area.width() <= 200 {
                ink(buf, clip, area, fonts, look, text, color, opa, steps);
            }
        }
        Shape::Image { images, id } => {
            picture(buf, clip, area, images, id, color, opa, steps);
        }
    }
}

/// A buffer of at most so many pixels.
pub(crate) fn opened(rt: &impl Abort, alloc: Global, limit: u32) -> DrawBuf
    requires some { 1 ≤ limit }
    requires most { limit ≤ 48 }
    ensures { result.limit ≡ limit }
{
    DrawBuf::open(alloc, limit).expect(rt, "no memory")
}

/// An item in a clip: the pixels that are not black, line by line, each line as the bits of a byte from the
/// left.
pub(crate) fn seen(rt: &impl Abort, alloc: Global, clip: Area, item: Item<'_>) -> [u8; 6] {
    let mut buf = opened(rt, alloc, 48);
    draw(&mut buf, WHOLE, clip, &[item]);
    lines_of(buf.pixels())
}

/// Items over all pixels: the number of the first pixel's colour.
pub(crate) fn first_number(rt: &impl Abort, alloc: Global, items: &[Item<'_>]) -> u16 {
    let mut buf = opened(rt, alloc, 48);
    draw(&mut buf, WHOLE, WHOLE, items);
    number_at(buf.pixels(), 0)
}

/// The number of the colour at a place: 0 if there is none.
pub(crate) fn number_at(colors: &[Rgb565], i: usize) -> u16 {
    if i < colors.len() { colors[i].0 } else { 0 }
}

/// The colours that are not black.
pub(crate) fn lines_of(colors: &[Rgb565]) -> [u8; 6] {
    let mut lines = [0u8; 6];
    for (i, color) in colors.iter().enumerate() {
        if i < 48 && color.0 != 0 {
            lines[i / 8] |= bit_of(i % 8);
        }
    }
    lines
}

/// The bit of a column.
fn bit_of(x: usize) -> u8 {
    match x {
        0 => 128,
        1 => 64,
        2 => 32,
        3 => 16,
        4 => 8,
        5 => 4,
        6 => 2,
        _ => 1,
    }
}

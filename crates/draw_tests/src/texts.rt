//! Texts.

use crate::canvas::{Shape, WHOLE, white};
use crate::checks::{check_areas, check_clips, check_shades, same_at};
use gui_base::Area;
use gui_font::{Fonts, GlyphBox};
use std::alloc::Global;
use std::process::Abort;

/// Three points in a row that begin left of a cell of two.
const BAR: GlyphBox = GlyphBox {
    advance: 2,
    w: 3,
    h: 1,
    ox: -1,
    oy: 0,
};

/// The font 1, whose `A` is a bar.
fn bar_font(rt: &impl Abort, alloc: Global) -> Fonts {
    let mut fonts = Fonts::with_capacity(alloc, 1, 1, 1).expect(rt, "no memory");
    let answers = [
        fonts.begin(1, 2, 2),
        fonts.glyph(1, 'A', BAR, &[0xE0]),
        fonts.finish(1),
    ];
    same_at(rt, &"the font", &answers, &[Ok(()); 3]);
    fonts
}

/// A text of the built-in font.
fn plain<'a>(fonts: &'a Fonts, text: &'a str) -> Shape<'a> {
    Shape::Text {
        fonts,
        font: 0,
        text,
    }
}

#[test]
fn letters_are_cut_at_each_side(rt: HostRuntime) {
    let fonts = bar_font(&rt, rt.alloc());
    let letter = white(plain(&fonts, "H"), WHOLE);
    let table = [
        (WHOLE, [0x88, 0x88, 0x88, 0xF8, 0x88, 0x88]),
        (Area::at(1, 0, 7, 6), [0x08, 0x08, 0x08, 0x78, 0x08, 0x08]),
        (Area::at(0, 0, 3, 6), [0x80, 0x80, 0x80, 0xE0, 0x80, 0x80]),
        (Area::at(0, 3, 8, 3), [0, 0, 0, 0xF8, 0x88, 0x88]),
        (Area::at(0, 0, 8, 2), [0x88, 0x88, 0, 0, 0, 0]),
    ];
    check_clips(&rt, rt.alloc(), letter, &table);
}

#[test]
fn texts_are_cut_at_their_area(rt: HostRuntime) {
    let fonts = bar_font(&rt, rt.alloc());
    let table = [
        (Area::at(-2, -2, 12, 8), [0x20, 0xE0, 0x20, 0x20, 0x20, 0]),
        (Area::at(0, 0, 3, 6), [0x80, 0x80, 0x80, 0xE0, 0x80, 0x80]),
        (Area::at(0, 0, 0, 6), [0; 6]),
    ];
    check_areas(&rt, rt.alloc(), plain(&fonts, "H"), &table);
    let table = [(Area::at(0, -6, 6, 14), [0x88, 0, 0x88, 0x88, 0x88, 0xF8])];
    check_areas(&rt, rt.alloc(), plain(&fonts, "HH"), &table);
    check_areas(&rt, rt.alloc(), plain(&fonts, "é"), &[(WHOLE, [0; 6])]);
}

#[test]
fn ink_stays_in_its_cell(rt: HostRuntime) {
    let fonts = bar_font(&rt, rt.alloc());
    let bars = Shape::Text {
        fonts: &fonts,
        font: 1,
        text: "A A",
    };
    let table = [
        (WHOLE, [0xCC, 0, 0, 0, 0, 0]),
        (Area::at(1, 0, 4, 2), [0x48, 0, 0, 0, 0, 0]),
    ];
    check_clips(&rt, rt.alloc(), white(bars, WHOLE), &table);
}

#[test]
fn ink_is_mixed_once(rt: HostRuntime) {
    let fonts = bar_font(&rt, rt.alloc());
    check_shades(&rt, rt.alloc(), white(plain(&fonts, "H"), WHOLE));
}

//! Fonts that are built glyph by glyph: each refusal in its order, and each pool at its last slot.
use crate::checks::same;
use crate::texts::{opened, plain};
use gui_base::{Pool, Refusal};
use gui_font::{Fonts, GlyphBox};

/// A glyph without points.
pub(crate) fn blank(advance: u8) -> GlyphBox {
    GlyphBox {
        advance,
        w: 0,
        h: 0,
        ox: 0,
        oy: 0,
    }
}

/// Three points in a row that begin left of a cell of two.
const BAR: GlyphBox = GlyphBox {
    advance: 2,
    w: 3,
    h: 1,
    ox: -1,
    oy: 0,
};

#[test]
fn refusals_come_in_order(rt: HostRuntime) {
    let mut fonts = opened(&rt, rt.alloc(), 2);
    let answers = [
        fonts.glyph(1, 'a', BAR, &[]),
        fonts.finish(1),
        fonts.begin(1, 2, 2),
        fonts.glyph(1, 'a', BAR, &[0xE0]),
        fonts.begin(1, 2, 2),
        fonts.glyph(1, 'a', BAR, &[]),
        fonts.glyph(1, 'b', BAR, &[]),
        fonts.finish(1),
    ];
    same(
        &rt,
        &answers,
        &[
            Err(Refusal::Unknown),
            Err(Refusal::Unknown),
            Ok(()),
            Ok(()),
            Err(Refusal::Taken),
            Err(Refusal::Taken),
            Err(Refusal::Place),
            Ok(()),
        ],
    );
    // A character that is there is refused before the font that takes no more.
    let after = [
        fonts.finish(1),
        fonts.glyph(1, 'a', BAR, &[0xE0]),
        fonts.glyph(1, 'b', BAR, &[0xE0]),
    ];
    same(
        &rt,
        &after,
        &[
            Err(Refusal::Place),
            Err(Refusal::Taken),
            Err(Refusal::Place),
        ],
    );
}

#[test]
fn the_built_in_font_is_finished(rt: HostRuntime) {
    let mut fonts = opened(&rt, rt.alloc(), 2);
    let answers = [
        fonts.begin(0, 8, 6),
        fonts.glyph(0, 'a', BAR, &[0xE0]),
        fonts.glyph(0, 'é', BAR, &[0xE0]),
        fonts.finish(0),
    ];
    same(
        &rt,
        &answers,
        &[
            Err(Refusal::Taken),
            Err(Refusal::Taken),
            Err(Refusal::Place),
            Err(Refusal::Place),
        ],
    );
    same(
        &rt,
        &[fonts.finished(0), fonts.finished(1)],
        &[Some(true), None],
    );
}

#[test]
fn last_slot_then_full(rt: HostRuntime) {
    let mut fonts = Fonts::with_capacity(rt.alloc(), 1, 2, 2).expect(&rt, "no memory");
    let wide = GlyphBox { w: 16, ..BAR };
    let answers = [
        fonts.begin(1, 2, 2),
        fonts.begin(2, 2, 2),
        fonts.glyph(1, 'a', BAR, &[0xE0]),
        fonts.glyph(1, 'b', wide, &[0, 0]),
        fonts.glyph(1, 'b', BAR, &[0xA0]),
        // The pool of glyphs comes before that of ink.
        fonts.glyph(1, 'c', BAR, &[0xE0]),
    ];
    same(
        &rt,
        &answers,
        &[
            Ok(()),
            Err(Refusal::Full(Pool::Fonts)),
            Ok(()),
            Err(Refusal::Full(Pool::Ink)),
            Ok(()),
            Err(Refusal::Full(Pool::Glyphs)),
        ],
    );
    // Both letters are as they were given.
    let inked = [ink_of(&fonts, "a"), ink_of(&fonts, "b")];
    same(&rt, &inked, &[[true, true, false], [false, true, false]]);
}

/// Which of the first three points of the first line of a text in font 1 are inked.
fn ink_of(fonts: &Fonts, text: &str) -> [bool; 3] {
    if text.len() > 1000 {
        return [false; 3];
    }
    let look = plain(1);
    [
        fonts.ink_at(look, text, 9, 0, 0),
        fonts.ink_at(look, text, 9, 1, 0),
        fonts.ink_at(look, text, 9, 2, 0),
    ]
}

#[test]
fn ink_stays_in_its_cell(rt: HostRuntime) {
    let mut fonts = opened(&rt, rt.alloc(), 2);
    let answers = [fonts.begin(1, 2, 2), fonts.glyph(1, 'A', BAR, &[0xFF])];
    same(&rt, &answers, &[Ok(()); 2]);
    // The missing glyph of `B` is an empty cell of the font's advance.
    let inked = [ink_of(&fonts, "A"), ink_of(&fonts, "BA")];
    same(&rt, &inked, &[[true, true, false], [false, false, true]]);
    let outside = [
        fonts.ink_at(plain(1), "A", 9, -1, 0),
        fonts.ink_at(plain(1), "A", 9, 0, -1),
        fonts.ink_at(plain(1), "A", 9, 0, 1),
    ];
    same(&rt, &outside, &[false; 3]);
}

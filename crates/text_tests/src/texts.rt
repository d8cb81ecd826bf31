//! Lines and measures of texts that were worked out by hand.
ghost use Rattle.std.specs.Prelude.{◌≤◌};

use crate::checks::same;
use gui_font::{Fonts, TextAlign, TextLook};
use std::alloc::Global;
use std::process::Abort;

/// The bytes of a line, from its start to before its end, and the width of its run.
type Wanted = (usize, usize, i32);

/// A text, its width, and its lines.
type Case = (&'static str, u16, &'static [Wanted]);

/// A font that is not built in: its `i` takes no room, its `m` 9 pixels, and all others 4.
const UNEVEN: u8 = 7;

/// In the built-in font.
const EVEN_CASES: [Case; 8] = [
    ("ab cd", 24, &[(0, 3, 18), (3, 5, 12)]),
    ("abcdef", 24, &[(0, 4, 24), (4, 6, 12)]),
    ("é", 5, &[(0, 2, 6)]),
    ("", 9, &[(0, 0, 0)]),
    ("a\n", 60, &[(0, 1, 6), (2, 2, 0)]),
    ("ab", 0, &[(0, 1, 6), (1, 2, 6)]),
    ("ab cd ef", 30, &[(0, 3, 18), (3, 8, 30)]),
    ("   a", 12, &[(0, 2, 12), (2, 4, 12)]),
];

const UNEVEN_CASES: [Case; 3] = [
    ("iiiiii", 0, &[(0, 6, 0)]),
    ("mi mi", 13, &[(0, 3, 13), (3, 5, 9)]),
    ("mm", 8, &[(0, 1, 9), (1, 2, 9)]),
];

pub(crate) fn opened(rt: &impl Abort, alloc: Global, slots: u32) -> Fonts {
    Fonts::with_capacity(alloc, slots, slots, slots).expect(rt, "no memory")
}

pub(crate) fn plain(font: u8) -> TextLook
    ensures letter { result.letter ≤ 100 }
    ensures line { result.line ≤ 100 }
{
    TextLook {
        font,
        letter: 0,
        line: 0,
        align: TextAlign::Left,
    }
}

/// Whether the text of a case has its lines.
fn has_lines(fonts: &Fonts, font: u8, case: &Case) -> bool {
    let (text, width, wanted) = *case;
    if text.len() > 1000 {
        return false;
    }
    let mut wanted = wanted.iter();
    let mut same = true;
    for line in fonts.lines(plain(font), text, Some(i32::from(width))) {
        same = same && wanted.next() == Some(&(line.start, line.end, line.width));
    }
    same && wanted.next().is_none()
}

fn all_have_lines(fonts: &Fonts, font: u8, cases: &[Case]) -> bool {
    cases.iter().all(|case| has_lines(fonts, font, case))
}

#[test]
fn texts_are_cut_into_lines(rt: HostRuntime) {
    let mut fonts = opened(&rt, rt.alloc(), 2);
    same(&rt, &all_have_lines(&fonts, 0, &EVEN_CASES), &true);
    let answers = [
        fonts.begin(UNEVEN, 3, 4),
        fonts.glyph(UNEVEN, 'i', crate::fonts::blank(0), &[]),
        fonts.glyph(UNEVEN, 'm', crate::fonts::blank(9), &[]),
    ];
    same(&rt, &answers, &[Ok(()); 3]);
    same(&rt, &all_have_lines(&fonts, UNEVEN, &UNEVEN_CASES), &true);
}

#[test]
fn measures_are_the_widest_run_and_all_lines(rt: HostRuntime) {
    let fonts = opened(&rt, rt.alloc(), 0);
    let spaced = TextLook {
        font: 0,
        letter: 1,
        line: 2,
        align: TextAlign::Left,
    };
    let sizes = [
        fonts.measure(spaced, "ab\nc", None),
        fonts.measure(spaced, "", None),
        fonts.measure(plain(0), "ab cd", Some(24)),
        fonts.measure(plain(0), "ab cd", Some(30)),
    ];
    same(&rt, &sizes, &[(13, 18), (0, 8), (18, 16), (30, 8)]);
}

/// Whether a point of `|` is inked, which is the third column of its cell, and one of the second line.
fn bar(fonts: &Fonts, align: TextAlign, width: u8, x: i32) -> (bool, bool) {
    let look = TextLook {
        font: 0,
        letter: 0,
        line: 0,
        align,
    };
    let width = i32::from(width);
    (
        fonts.ink_at(look, "|", width, x, 6),
        fonts.ink_at(look, "a\n|", width, x, 14),
    )
}

#[test]
fn ink_stands_by_its_alignment(rt: HostRuntime) {
    let fonts = opened(&rt, rt.alloc(), 0);
    let left = bar(&fonts, TextAlign::Left, 15, 2);
    let center = bar(&fonts, TextAlign::Center, 15, 6);
    let right = bar(&fonts, TextAlign::Right, 15, 11);
    same(&rt, &[left, center, right], &[(true, true); 3]);
    // A line that is wider than its width stands to the left of it by half of what is too much, rounded down.
    let wide = [
        bar(&fonts, TextAlign::Center, 3, 0),
        bar(&fonts, TextAlign::Center, 3, 1),
    ];
    same(&rt, &wide, &[(true, true), (false, false)]);
}

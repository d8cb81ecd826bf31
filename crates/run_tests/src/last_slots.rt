//! A line that is refused for the last slot of a pool sends nothing: what was shown before stays.

use crate::running::run;
use scene_run::Status;
use std::alloc::Global;
use std::process::Abort;
use std::test::Fail;

/// The word of a pool, and a script that takes its last slot, asks for a frame, is refused one slot more, and asks for
/// a frame again.
type Case = (&'static str, &'static str);

const SCENES: &[Case] = &[
    ("objects=4", "new 10 3 obj\nframe\nnew 11 3 obj\nframe\n"),
    ("styles=1", "style 1\nframe\nstyle 2\nframe\n"),
    (
        "entries=1",
        "local 3 main bg_opa 255\nframe\nlocal 3 main bg_color #000000\nframe\n",
    ),
    (
        "uses=1",
        "style 1\nuse 3 1 main\nframe\nuse 3 1 main:checked\nframe\n",
    ),
    (
        "texts=1",
        "new 10 3 label\ntext 10 \"28 bytes, which are a chunk.\"\nframe\n\
            text 10 \"29 bytes, one more than that.\"\nframe\n",
    ),
];

const FONTS_AND_IMAGES: &[Case] = &[
    ("fonts=1", "font 1 8 6\nframe\nfont 2 8 6\nframe\n"),
    (
        "glyphs=1",
        "font 1 8 6\nglyph 1 65 6 0 0 0 0 -\nframe\nglyph 1 66 6 0 0 0 0 -\nframe\n",
    ),
    (
        "ink=1",
        "font 1 8 6\nglyph 1 65 6 8 1 0 0 FF\nframe\nglyph 1 66 6 8 1 0 0 FF\nframe\n",
    ),
    (
        "images=1",
        "image 1 565 1 1\nframe\nimage 2 565 1 1\nframe\n",
    ),
    (
        "pixels=2",
        "image 1 565 1 1\nframe\nimage 2 alpha 1 1\nframe\n",
    ),
];

const RULES: &[Case] = &[
    (
        "handlers=1",
        "on 3 clicked say\nframe\non 3 clicked say\nframe\n",
    ),
    ("groups=1", "group 1\nframe\ngroup 2\nframe\n"),
    (
        "anims=1",
        "new 10 3 obj\nanim 10 x 0 1 10 0 0 1 linear\nframe\n\
            anim 10 y 0 1 10 0 0 1 linear\nframe\n",
    ),
];

/// Runs each of these cases: the first frame sends the panel, the second nothing.
fn try_cases(rt: &impl Abort, alloc: Global, cases: &[Case]) -> Result<(), Fail> {
    for case in cases {
        let (pool, script) = *case;
        let ran = run(alloc, &["4", "2", "1", pool], script.as_bytes(), &[])?;
        ran.check_counts(rt, Status::Noted, &[8, 0], pool);
    }
    Ok(())
}

#[test]
fn a_full_pool_of_the_scene_sends_nothing(rt: HostRuntime) -> Result<(), Fail> {
    try_cases(&rt, rt.alloc(), SCENES)
}

#[test]
fn a_full_pool_of_fonts_or_images_sends_nothing(rt: HostRuntime) -> Result<(), Fail> {
    try_cases(&rt, rt.alloc(), FONTS_AND_IMAGES)
}

#[test]
fn a_full_pool_of_rules_sends_nothing(rt: HostRuntime) -> Result<(), Fail> {
    try_cases(&rt, rt.alloc(), RULES)
}

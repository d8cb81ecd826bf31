//! How many pixels come to the panel by each frame.

use crate::running::run;
use scene_run::Status;
use std::alloc::Global;
use std::process::Abort;
use std::test::Fail;
use test_runs::Fault::Start;

/// A run and what each of its frames is sent.
struct Case {
    name: &'static str,
    words: [&'static str; 3],
    script: &'static str,
    counts: &'static [u64],
}

/// Runs a case, of which no line is refused and no frame faults.
fn try_case(rt: &impl Abort, alloc: Global, case: &Case) -> Result<(), Fail> {
    let ran = run(alloc, &case.words, case.script.as_bytes(), &[])?;
    ran.check_counts(rt, Status::Done, case.counts, case.name);
    Ok(())
}

const MOVED: Case = Case {
    name: "an object that moves by one pixel: its old place and its new one, which are joined; a new colour: its \
        place, once",
    words: ["8", "6", "6"],
    script: "new 10 3 obj\nsize 10 3 2\npos 10 1 1\nlocal 10 main bg_opa 255\n\
        local 10 main bg_color #000000\nframe\npos 10 2 1\nframe\n\
        local 10 main bg_color #00FF00\nframe\n",
    counts: &[48, 8, 6],
};

const MOVED_WITH_CHILD: Case = Case {
    name: "an object that moves with its child: both places of both, of 40 pixels, join to 20",
    words: ["8", "4", "4"],
    script: "new 10 3 obj\nsize 10 4 4\nlocal 10 main bg_opa 255\nlocal 10 main bg_color #000000\n\
        new 11 10 obj\nsize 11 4 2\npos 11 2 0\nlocal 11 main bg_opa 255\n\
        local 11 main bg_color #0000FF\nframe\npos 10 1 0\nframe\n",
    counts: &[32, 20],
};

const TO_FRONT: Case = Case {
    name: "an object that comes to the front, also where it stands there: its place",
    words: ["4", "1", "1"],
    script: "new 10 3 obj\nsize 10 2 1\nlocal 10 main bg_opa 255\nlocal 10 main bg_color #FF0000\n\
        new 11 3 obj\nsize 11 2 1\npos 11 1 0\nlocal 11 main bg_opa 255\n\
        local 11 main bg_color #00FF00\nframe\nfront 10\nframe\nfront 10\nframe\n",
    counts: &[4, 2, 2],
};

const SHARED_STYLE: Case = Case {
    name: "a style that two objects share: the places of both",
    words: ["8", "2", "2"],
    script: "style 1\nnew 10 3 obj\nsize 10 2 1\nlocal 10 main bg_opa 255\nuse 10 1 main\n\
        new 11 3 obj\nsize 11 2 1\npos 11 4 0\nlocal 11 main bg_opa 255\nuse 11 1 main\n\
        frame\nset 1 bg_color #FF0000\nframe\n",
    counts: &[16, 4],
};

const TEXTS: Case = Case {
    name: "a longer text: the places of both, which are joined; the same text again: its place",
    words: ["24", "8", "8"],
    script: "new 10 3 label\ntext 10 \"a\"\nframe\ntext 10 \"abc\"\nframe\ntext 10 \"abc\"\nframe\n\
        text 10 \"\"\nframe\n",
    counts: &[192, 144, 144, 144],
};

const VALUES: Case = Case {
    name: "a value that changes, and one that stays at the end of its range: the place of the bar, once",
    words: ["16", "8", "8"],
    script: "new 10 3 bar\nsize 10 10 2\npos 10 1 1\nframe\nvalue 10 100\nframe\nvalue 10 101\nframe\n\
        range 10 0 200\nframe\n",
    counts: &[128, 20, 20, 20],
};

#[test]
fn a_moved_object_sends_both_its_places_and_a_new_colour_one(rt: HostRuntime) -> Result<(), Fail> {
    try_case(&rt, rt.alloc(), &MOVED)
}

#[test]
fn a_child_that_moves_along_sends_its_places(rt: HostRuntime) -> Result<(), Fail> {
    try_case(&rt, rt.alloc(), &MOVED_WITH_CHILD)
}

#[test]
fn the_named_object_is_sent_though_it_stays(rt: HostRuntime) -> Result<(), Fail> {
    try_case(&rt, rt.alloc(), &TO_FRONT)
}

#[test]
fn a_shared_style_sends_all_its_users(rt: HostRuntime) -> Result<(), Fail> {
    try_case(&rt, rt.alloc(), &SHARED_STYLE)
}

#[test]
fn a_text_or_a_value_sends_the_places_of_its_object(rt: HostRuntime) -> Result<(), Fail> {
    try_case(&rt, rt.alloc(), &TEXTS)?;
    try_case(&rt, rt.alloc(), &VALUES)
}

/// Adds lines that make an object of a pixel.
fn push_dot(alloc: Global, script: &mut String, h: i32, x: i32) -> Result<(), Fail> {
    let lines = format!(in alloc;
        "new {h} 3 obj\nsize {h} 1 1\npos {h} {x} 0\nlocal {h} main bg_opa 255\n"
    )?;
    Ok(script.push_str(lines.as_str())?)
}

/// Adds a line that turns an object black.
fn push_black(alloc: Global, script: &mut String, h: i32) -> Result<(), Fail> {
    let line = format!(in alloc; "local {h} main bg_color #000000\n")?;
    Ok(script.push_str(line.as_str())?)
}

/// A script that makes 33 objects of a pixel, with a pixel between each two, asks for a frame, turns them black and asks again.
fn black_dots(alloc: Global) -> Result<String, Fail> {
    let mut script = String::new(alloc);
    for i in 0_i32..33 {
        push_dot(alloc, &mut script, i.wrapping_add(10), i.wrapping_mul(2))?;
    }
    script.push_str("frame\n")?;
    for h in 10..43 {
        push_black(alloc, &mut script, h)?;
    }
    script.push_str("frame\n")?;
    Ok(script)
}

/// One area more is black than the list has room for.
#[test]
fn a_list_that_overflows_sends_the_panel(rt: HostRuntime) -> Result<(), Fail> {
    let script = black_dots(rt.alloc())?;
    let ran = run(rt.alloc(), &["66", "1", "1"], script.as_bytes(), &[])?;
    ran.check_counts(&rt, Status::Done, &[66, 66], "both frames send the panel");
    Ok(())
}

/// The frame after a fault sends the slice that failed, and nothing that had arrived.
#[test]
fn a_slice_that_failed_is_sent_again(rt: HostRuntime) -> Result<(), Fail> {
    let ran = run(rt.alloc(), &["4", "2", "1"], b"frame\nframe\n", &[Start(2)])?;
    ran.check_counts(&rt, Status::Noted, &[12], "one frame is presented");
    ran.check_sent(&rt, 12, "each slice is sent, and the second once more");
    Ok(())
}

/// The second slice of a change fails: the next frame sends that slice again, and nothing else.
#[test]
fn after_a_fault_only_what_was_pending_is_sent(rt: HostRuntime) -> Result<(), Fail> {
    let script = b"new 10 3 obj\nsize 10 4 2\nlocal 10 main bg_opa 255\nframe\n\
        local 10 main bg_color #FF0000\nframe\nframe\nframe\n";
    let ran = run(rt.alloc(), &["4", "4", "1"], script, &[Start(6)])?;
    ran.check_counts(
        &rt,
        Status::Noted,
        &[16, 12, 0],
        "three frames are presented",
    );
    Ok(())
}

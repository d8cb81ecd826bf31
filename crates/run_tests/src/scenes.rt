//! Frames of objects after a start or a transfer that failed, and after changes of what is in flight. The logs
//! that are expected come from a second implementation.

use crate::running::{Ran, Setup};
use scene_run::Status;
use std::alloc::{AllocError, Global};
use std::process::Abort;
use std::test::Fail;
use test_runs::Fault::{self, Poll, Start};
use test_runs::WORDS;

/// A run of 4 by 2 pixels over objects in memory.
struct Case {
    name: &'static str,
    faults: &'static [Fault],
    /// How many pixels each of the first polls moves.
    moves: &'static [u32],
    status: Status,
    script: &'static str,
    log: &'static str,
    /// The presented frames, row by row, with a letter for a pixel: W is white, R red, G green.
    frames: &'static [&'static str],
}

/// The red, green and blue of a pixel.
fn color_of(letter: u8) -> [u8; 3] {
    match letter {
        b'R' => [0xFF, 0x00, 0x00],
        b'G' => [0x00, 0xFF, 0x00],
        _ => [0xFF, 0xFF, 0xFF],
    }
}

/// The files of frames.
fn frame_bytes(alloc: Global, frames: &[&str]) -> Result<Vec<u8>, AllocError> {
    let mut bytes = Vec::new(alloc);
    for frame in frames {
        bytes.extend_from_slice(b"P6\n4 2\n255\n")?;
        for letter in frame.bytes() {
            bytes.extend_from_slice(&color_of(letter))?;
        }
    }
    Ok(bytes)
}

/// Compares what a run came to.
fn compare(rt: &impl Abort, ran: &Ran, case: &Case, frames: &[u8]) {
    let name = case.name;
    ran.check_log(rt, case.log, name);
    ran.check_frames(rt, frames, name);
    ran.check_status(rt, case.status, name);
}

/// Runs a case and compares.
fn try_case(rt: &impl Abort, alloc: Global, case: &Case) -> Result<(), Fail> {
    let setup = Setup {
        words: &WORDS,
        script: case.script.as_bytes(),
        piece: 64,
        faults: case.faults,
        moves: case.moves,
    };
    let frames = frame_bytes(alloc, case.frames)?;
    let ran = setup.run(alloc)?;
    compare(rt, &ran, case, frames.as_slice());
    Ok(())
}

const FIRST_FRAME: Case = Case {
    name: "the second start of the first frame fails",
    faults: &[Start(2)],
    moves: &[],
    status: Status::Noted,
    script: "new 10 3 obj\npos 10 1 0\nsize 10 2 2\nlocal 10 main bg_color #FF0000\n\
        local 10 main bg_opa 255\nframe\nframe\n",
    log: "1 ok\n2 ok\n3 ok\n4 ok\n5 ok\n6 frame 1 fault\n7 frame 2 done\n",
    frames: &["WRRWWRRW"],
};

const AFTER_CHANGE: Case = Case {
    name: "a start after a change fails",
    faults: &[Start(3)],
    moves: &[],
    status: Status::Noted,
    script: "new 10 3 obj\npos 10 1 0\nsize 10 2 1\nlocal 10 main bg_color #FF0000\n\
        local 10 main bg_opa 255\nframe\npos 10 2 1\nframe\nframe\ndelete 10\nframe\n",
    log: "1 ok\n2 ok\n3 ok\n4 ok\n5 ok\n6 frame 1 done\n7 ok\n8 frame 2 fault\n9 frame 3 done\n\
        10 ok\n11 frame 4 done\n",
    frames: &["WRRWWWWW", "WWWWWWRR", "WWWWWWWW"],
};

const TWO_FRAMES: Case = Case {
    name: "a start and a transfer of two frames fail",
    faults: &[Start(3), Poll(3)],
    moves: &[],
    status: Status::Noted,
    script: "new 10 3 obj\npos 10 1 0\nsize 10 2 2\nlocal 10 main bg_color #FF0000\n\
        local 10 main bg_opa 255\nframe\nlocal 10 main bg_color #00FF00\nframe\n\
        pos 10 2 0\nframe\nframe\n",
    log: "1 ok\n2 ok\n3 ok\n4 ok\n5 ok\n6 frame 1 done\n7 ok\n8 frame 2 fault\n9 ok\n\
        10 frame 3 fault\n11 frame 4 done\n",
    frames: &["WRRWWRRW", "WWGGWWGG"],
};

const NEW_VALUE: Case = Case {
    name: "a transfer after a new value fails",
    faults: &[Poll(3)],
    moves: &[],
    status: Status::Noted,
    script: "new 10 3 bar\nsize 10 4 1\nlocal 10 main bg_opa 0\n\
        local 10 indicator bg_color #FF0000\nvalue 10 25\nframe\nvalue 10 75\nframe\nframe\n",
    log: "1 ok\n2 ok\n3 ok\n4 ok\n5 ok\n6 frame 1 done\n7 ok\n8 frame 2 fault\n9 frame 3 done\n",
    frames: &["RWWWWWWW", "RRRWWWWW"],
};

const NEW_PICTURE: Case = Case {
    name: "a start after a new picture fails",
    faults: &[Start(3)],
    moves: &[],
    status: Status::Noted,
    script: "image 1 565 2 1\nrow 1 0 F80007E0\nnew 10 3 image\nframe\nsource 10 1\npos 10 1 1\n\
        frame\nframe\n",
    log: "1 ok\n2 ok\n3 ok\n4 frame 1 done\n5 ok\n6 ok\n7 frame 2 fault\n8 frame 3 done\n",
    frames: &["WWWWWWWW", "WWWWWRGW"],
};

/// A poll that moves one pixel, each of the first 32 times.
const SLOWLY: &[u32] = &[1; 32];

const IN_FLIGHT: Case = Case {
    name: "pixels change that are in flight",
    faults: &[],
    moves: SLOWLY,
    status: Status::Done,
    script: "new 10 3 obj\nsize 10 4 1\nlocal 10 main bg_opa 255\nlocal 10 main bg_color #FF0000\n\
        pump\npump\nlocal 10 main bg_color #00FF00\npump\npump\nframe\n",
    log: "1 ok\n2 ok\n3 ok\n4 ok\n5 pump moved\n6 pump moved\n7 ok\n8 pump moved\n\
        9 pump waiting\n10 frame 1 done\n",
    frames: &["GGGGWWWW"],
};

const LOST_IN_FLIGHT: Case = Case {
    name: "pixels change that are in flight, whose transfer fails, and a frame leaves nothing to be done",
    faults: &[Poll(2)],
    moves: SLOWLY,
    status: Status::Done,
    script: "new 10 3 obj\nsize 10 4 1\nlocal 10 main bg_opa 255\nlocal 10 main bg_color #FF0000\n\
        pump\npump\npump\nlocal 10 main bg_color #00FF00\npump\npump\nframe\npump\n",
    log: "1 ok\n2 ok\n3 ok\n4 ok\n5 pump moved\n6 pump moved\n7 pump moved\n8 ok\n\
        9 pump fault\n10 pump moved\n11 frame 1 done\n12 pump idle\n",
    frames: &["GGGGWWWW"],
};

#[test]
fn the_frame_after_a_first_one_that_failed_is_whole(rt: HostRuntime) -> Result<(), Fail> {
    try_case(&rt, rt.alloc(), &FIRST_FRAME)
}

#[test]
fn frames_after_changes_that_failed_are_whole(rt: HostRuntime) -> Result<(), Fail> {
    try_case(&rt, rt.alloc(), &AFTER_CHANGE)?;
    try_case(&rt, rt.alloc(), &TWO_FRAMES)
}

#[test]
fn frames_after_values_and_pictures_that_failed_are_whole(rt: HostRuntime) -> Result<(), Fail> {
    try_case(&rt, rt.alloc(), &NEW_VALUE)?;
    try_case(&rt, rt.alloc(), &NEW_PICTURE)
}

#[test]
fn frames_after_changes_of_what_is_in_flight_are_whole(rt: HostRuntime) -> Result<(), Fail> {
    try_case(&rt, rt.alloc(), &IN_FLIGHT)?;
    try_case(&rt, rt.alloc(), &LOST_IN_FLIGHT)
}

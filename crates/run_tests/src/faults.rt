//! Runs in which calls on the outside fail. The bytes, statuses and counts that are expected come from a
//! second implementation.

use crate::running::{Ran, Setup, check};
use std::alloc::Global;
use std::process::Abort;
use std::test::Fail;
use test_runs::Fault::{self, Frames, Log, Open, Poll, Read, Start};
use test_runs::{WHITE_FRAME, WORDS};

/// Whether the bytes are `whole` white frames and, if `part` is set, the first bytes of a further one.
fn are_white_frames(bytes: &[u8], whole: usize, part: bool) -> bool {
    let mut rest = bytes;
    for _ in 0..whole {
        match rest.strip_prefix(WHITE_FRAME) {
            Some(later) => rest = later,
            None => return false,
        }
    }
    rest.len() < WHITE_FRAME.len() && WHITE_FRAME.starts_with(rest) && rest.is_empty() != part
}

/// A script with a blank line, a comment, a line of no form, a carriage return and no last newline.
const MIXED: &[u8] = b"frame\n\nnew 10\n# white\n frame \r\nframe";

const MIXED_LOG: &str = "1 frame 1 done\n3 refused syntax\n5 frame 2 done\n6 frame 3 done\n";

const MIXED_UP_TO_5: &str = "1 frame 1 done\n3 refused syntax\n5 frame 2 done\n";

/// A script of two frames, and its log if both, the first alone, the second or neither is done.
const TWO: &[u8] = b"frame\nframe\n";

const BOTH: &str = "1 frame 1 done\n2 frame 2 done\n";

const FIRST: &str = "1 frame 1 done\n";

const SECOND: &str = "1 frame 1 fault\n2 frame 2 done\n";

const NEITHER: &str = "1 frame 1 fault\n2 frame 2 fault\n";

/// A script of three pumps and a frame.
const PUMPED: &[u8] = b"pump\npump\npump\nframe\n";

/// A script, how many bytes a read gives at most, and the calls that fail. Then what the run comes to: the
/// number of its status, its log, how many frames are written whole, whether the first bytes of a further one
/// are, and how many pixels are sent.
type Case = (
    &'static [u8],
    usize,
    &'static [Fault],
    u8,
    &'static str,
    usize,
    bool,
    u64,
);

/// Each kind of call fails once. The first frame is sent whole, by two starts with a poll each, and a later one
/// sends what has failed. Each is written in two puts.
const ONE_FAULT: &[Case] = &[
    (TWO, 1, &[Read(3)], 3, "", 0, false, 0),
    (TWO, 1, &[Read(7)], 3, FIRST, 1, false, 8),
    (TWO, 1, &[Read(13)], 3, BOTH, 2, false, 8),
    (TWO, 1, &[Log(1)], 4, "1 frame", 1, false, 8),
    (TWO, 1, &[Frames(1)], 4, "", 0, true, 8),
    (TWO, 1, &[Start(1)], 1, SECOND, 1, false, 12),
    (TWO, 1, &[Start(2)], 1, SECOND, 1, false, 12),
    (TWO, 1, &[Poll(1)], 1, SECOND, 1, false, 12),
    (TWO, 1, &[Poll(2)], 1, SECOND, 1, false, 12),
    (TWO, 1, &[Open], 5, "", 0, false, 0),
];

const READS: &[Case] = &[
    (TWO, 64, &[], 0, BOTH, 2, false, 8),
    (MIXED, 1, &[], 1, MIXED_LOG, 3, false, 8),
    (MIXED, 3, &[], 1, MIXED_LOG, 3, false, 8),
    (TWO, 64, &[Read(1)], 3, "", 0, false, 0),
    (TWO, 64, &[Read(2)], 3, BOTH, 2, false, 8),
    (TWO, 64, &[Read(3)], 0, BOTH, 2, false, 8),
    (TWO, 3, &[Read(4)], 3, FIRST, 1, false, 8),
    (MIXED, 3, &[Read(13)], 3, MIXED_UP_TO_5, 2, false, 8),
];

const WRITES: &[Case] = &[
    (
        TWO,
        64,
        &[Log(2)],
        4,
        "1 frame 1 done\n2 frame",
        2,
        false,
        8,
    ),
    (
        MIXED,
        64,
        &[Log(2)],
        4,
        "1 frame 1 done\n3 refuse",
        1,
        false,
        8,
    ),
    (
        MIXED,
        1,
        &[Log(4)],
        4,
        "1 frame 1 done\n3 refused syntax\n5 frame 2 done\n6 frame",
        3,
        false,
        8,
    ),
    (TWO, 64, &[Frames(2)], 4, "", 0, true, 8),
    (TWO, 64, &[Frames(3)], 4, FIRST, 1, true, 8),
    (TWO, 64, &[Frames(4)], 4, FIRST, 1, true, 8),
    (MIXED, 3, &[Frames(6)], 4, MIXED_UP_TO_5, 2, true, 8),
    (
        TWO,
        64,
        &[Read(2), Log(2)],
        4,
        "1 frame 1 done\n2 frame",
        2,
        false,
        8,
    ),
];

const PANELS: &[Case] = &[
    (
        TWO,
        64,
        &[Open, Start(1), Read(1), Log(1), Frames(1)],
        5,
        "",
        0,
        false,
        0,
    ),
    (TWO, 64, &[Start(1), Start(2)], 1, NEITHER, 0, false, 8),
    (TWO, 64, &[Poll(2), Start(3)], 1, NEITHER, 0, false, 12),
    (
        MIXED,
        3,
        &[Start(1), Start(3)],
        1,
        "1 frame 1 fault\n3 refused syntax\n5 frame 2 fault\n6 frame 3 done\n",
        1,
        false,
        16,
    ),
    (
        TWO,
        1,
        &[Start(1), Read(7)],
        3,
        "1 frame 1 fault\n",
        0,
        false,
        4,
    ),
    (TWO, 64, &[Start(2), Log(1)], 4, "1 frame ", 0, false, 8),
    (
        TWO,
        64,
        &[Start(1), Frames(1)],
        4,
        "1 frame 1 fault\n",
        0,
        true,
        12,
    ),
];

/// A pump that faults shows in the log alone. The line of a pump that was made may be missing there.
const PUMPS: &[Case] = &[
    (
        PUMPED,
        64,
        &[Start(1)],
        0,
        "1 pump moved\n2 pump fault\n3 pump moved\n4 frame 1 done\n",
        1,
        false,
        12,
    ),
    (
        PUMPED,
        64,
        &[Poll(1)],
        0,
        "1 pump moved\n2 pump moved\n3 pump fault\n4 frame 1 done\n",
        1,
        false,
        12,
    ),
    (
        PUMPED,
        64,
        &[Poll(1), Poll(2)],
        1,
        "1 pump moved\n2 pump moved\n3 pump fault\n4 frame 1 fault\n",
        0,
        false,
        8,
    ),
    (
        PUMPED,
        1,
        &[Read(13)],
        3,
        "1 pump moved\n2 pump moved\n",
        0,
        false,
        4,
    ),
    (
        PUMPED,
        64,
        &[Log(2)],
        4,
        "1 pump moved\n2 pump",
        0,
        false,
        4,
    ),
];

/// What a run came to otherwise than its case says, if anything.
fn difference(ran: &Ran, case: &Case) -> Option<&'static str> {
    let (_, _, _, status, log, whole, part, sent) = *case;
    if ran.status as u8 != status {
        Some("the status")
    } else if ran.log.bytes() != log.as_bytes() {
        Some("the log")
    } else if ran.sent != sent {
        Some("the count of pixels")
    } else if !are_white_frames(ran.frames.bytes(), whole, part) {
        Some("the frames")
    } else {
        None
    }
}

/// Runs a case and compares.
fn try_case(rt: &impl Abort, alloc: Global, case: &Case) -> Result<(), Fail> {
    let setup = Setup {
        words: &WORDS,
        script: case.0,
        piece: case.1,
        faults: case.2,
        moves: &[],
    };
    let ran = setup.run(alloc)?;
    check(rt, difference(&ran, case), case.2);
    Ok(())
}

/// Runs each of these cases.
fn try_cases(rt: &impl Abort, alloc: Global, cases: &[Case]) -> Result<(), Fail> {
    for case in cases {
        try_case(rt, alloc, case)?;
    }
    Ok(())
}

#[test]
fn each_kind_of_call_fails_once(rt: HostRuntime) -> Result<(), Fail> {
    try_cases(&rt, rt.alloc(), ONE_FAULT)
}

#[test]
fn faults_of_reads_end_a_run(rt: HostRuntime) -> Result<(), Fail> {
    try_cases(&rt, rt.alloc(), READS)
}

#[test]
fn faults_of_writes_end_a_run(rt: HostRuntime) -> Result<(), Fail> {
    try_cases(&rt, rt.alloc(), WRITES)
}

#[test]
fn faults_of_panels_end_a_run_or_show_in_its_log(rt: HostRuntime) -> Result<(), Fail> {
    try_cases(&rt, rt.alloc(), PANELS)
}

#[test]
fn a_pump_that_faults_shows_in_the_log_alone(rt: HostRuntime) -> Result<(), Fail> {
    try_cases(&rt, rt.alloc(), PUMPS)
}

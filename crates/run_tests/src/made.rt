//! Made scripts over calls on the outside that fail. The statuses, logs and sums that are expected come from
//! a second implementation.

use crate::running::{Ran, Setup, check};
use std::alloc::Global;
use std::process::Abort;
use std::test::Fail;
use test_runs::Fault::{self, Frames, Log, Read, Start};

/// A made script on 4 by 2 pixels, in slices of one line.
const WORDS: [&str; 4] = ["4", "2", "1", "make=1"];

const WHOLE: &str = "made 1 lines 1261 refused 0 frames 11 faults 0 sum 59587\n";

/// The calls that fail. Then what the run comes to: the number of its status, its log, and how many bytes of
/// frames are written. Each whole frame takes 35 bytes, the first 11 of them in a put of their own.
type Case = (&'static [Fault], u8, &'static str, usize);

const CASES: &[Case] = &[
    (&[], 0, WHOLE, 385),
    (&[Read(1)], 0, WHOLE, 385),
    (
        &[Start(1), Start(5)],
        1,
        "made 1 lines 1261 refused 0 frames 9 faults 2 sum 59587\n",
        315,
    ),
    (&[Frames(9)], 4, "", 145),
    (&[Log(1)], 4, "made 1 lines 1261 refused 0 ", 385),
];

/// What a run came to otherwise than its case says, if anything.
fn difference(ran: &Ran, case: &Case) -> Option<&'static str> {
    let (_, status, log, frames) = *case;
    if ran.status as u8 != status {
        Some("the status")
    } else if ran.log.bytes() != log.as_bytes() {
        Some("the log")
    } else if ran.frames.bytes().len() != frames {
        Some("the count of bytes of frames")
    } else {
        None
    }
}

/// Runs a case and compares.
fn try_case(rt: &impl Abort, alloc: Global, case: &Case) -> Result<(), Fail> {
    let setup = Setup {
        words: &WORDS,
        script: b"a script that nobody reads",
        piece: 64,
        faults: case.0,
        moves: &[],
    };
    let ran = setup.run(alloc)?;
    check(rt, difference(&ran, case), case.0);
    Ok(())
}

/// Runs each of these cases.
fn try_cases(rt: &impl Abort, alloc: Global, cases: &[Case]) -> Result<(), Fail> {
    for case in cases {
        try_case(rt, alloc, case)?;
    }
    Ok(())
}

#[test]
fn faults_of_a_made_script_show_in_its_summary(rt: HostRuntime) -> Result<(), Fail> {
    try_cases(&rt, rt.alloc(), CASES)
}

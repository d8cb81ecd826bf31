//! The areas in which a frame comes to a panel, and what a panel shows that was never sent anything.

use crate::running::{Ran, run};
use scene_run::Status;
use std::alloc::Global;
use std::process::Abort;
use std::test::Fail;
use test_runs::Fault::{self, Start};
use test_runs::{WHITE_FRAME, WORDS};

/// Whether a run ended so, started these areas, has this log, and presented one white frame.
fn compare(rt: &impl Abort, ran: &Ran, status: Status, log: &str, corners: &[[i32; 4]]) {
    let name = "a white frame";
    ran.check_status(rt, status, name);
    ran.check_log(rt, log, name);
    ran.check_starts(rt, corners, name);
    ran.check_frames(rt, WHITE_FRAME, name);
}

/// Whether a script of which a frame is done starts these areas, has this log, and presents one white frame.
fn starts(
    rt: &impl Abort,
    alloc: Global,
    script: &[u8],
    faults: &[Fault],
    log: &str,
    corners: &[[i32; 4]],
) -> Result<(), Fail> {
    let status = if faults.is_empty() {
        Status::Done
    } else {
        Status::Noted
    };
    let ran = run(alloc, &WORDS, script, faults)?;
    compare(rt, &ran, status, log, corners);
    Ok(())
}

#[test]
fn two_slices_of_a_white_frame(rt: HostRuntime) -> Result<(), Fail> {
    starts(
        &rt,
        rt.alloc(),
        b"frame",
        &[],
        "1 frame 1 done\n",
        &[[0, 0, 3, 0], [0, 1, 3, 1]],
    )
}

#[test]
fn a_slice_whose_start_failed_is_started_again(rt: HostRuntime) -> Result<(), Fail> {
    starts(
        &rt,
        rt.alloc(),
        b"frame\nframe\n",
        &[Start(2)],
        "1 frame 1 fault\n2 frame 2 done\n",
        &[[0, 0, 3, 0], [0, 1, 3, 1], [0, 1, 3, 1]],
    )
}

/// Whether a run left a panel of eight pixels as it was opened, with an empty log.
fn is_untouched(rt: &impl Abort, ran: &Ran) {
    let name = "an empty script";
    ran.check_status(rt, Status::Done, name);
    ran.check_log(rt, "", name);
    ran.check_frames(rt, b"", name);
    assert_eq!(rt; ran.shown.as_slice(), [0xA5A5; 8].as_slice());
}

#[test]
fn the_empty_script_leaves_the_panel_as_it_was_opened(rt: HostRuntime) -> Result<(), Fail> {
    let ran = run(rt.alloc(), &WORDS, b"", &[])?;
    is_untouched(&rt, &ran);
    Ok(())
}

/// Whether a run sent a whole panel of eight by four pixels, and then one block.
fn sent_a_block(rt: &impl Abort, ran: &Ran) {
    let name = "a panel, and then a block";
    ran.check_status(rt, Status::Done, name);
    ran.check_starts(rt, &[[0, 0, 7, 3], [4, 0, 7, 1]], name);
    ran.check_sent(rt, 40, name);
}

#[test]
fn a_pixel_that_changes_is_sent_with_its_block(rt: HostRuntime) -> Result<(), Fail> {
    let script = b"new 10 3 obj\nsize 10 1 1\npos 10 5 1\nlocal 10 main bg_opa 255\nframe\n\
        local 10 main bg_color #FF0000\nframe\n";
    let ran = run(rt.alloc(), &["8", "4", "4", "block=4x2"], script, &[])?;
    sent_a_block(&rt, &ran);
    Ok(())
}

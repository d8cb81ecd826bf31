//! The stream of a white frame, and what it is if one of its puts fails. A put that fails writes the first half
//! of its bytes.

use crate::running::run;
use scene_run::Status;
use std::alloc::Global;
use std::process::Abort;
use std::test::Fail;

/// The sizes, two lines of four white pixels, and a frame: each piece is one put.
const STREAM: &[u8] = b"S\x00\x04\x00\x02\
    A\x00\x00\x00\x00\x00\x04\x00\x01\xFF\xFF\xFF\xFF\xFF\xFF\xFF\xFF\
    A\x00\x00\x00\x01\x00\x04\x00\x01\xFF\xFF\xFF\xFF\xFF\xFF\xFF\xFFF";

/// Whether two frames, of which the put of this number fails, end so and leave so many bytes of the stream.
fn breaks(
    rt: &impl Abort,
    alloc: Global,
    put: u64,
    status: Status,
    log: &str,
    bytes: usize,
) -> Result<(), Fail> {
    let ran = run(alloc, b"frame\nframe\n", &[put], &[])?;
    ran.check_end(rt, status, log);
    ran.check_stream(rt, STREAM.split_at(bytes.min(STREAM.len())).0);
    Ok(())
}

#[test]
fn a_white_frame_as_a_stream(rt: HostRuntime) -> Result<(), Fail> {
    let ran = run(rt.alloc(), b"frame\n", &[], &[])?;
    ran.check_end(&rt, Status::Done, "1 frame 1 done\n");
    ran.check_stream(&rt, STREAM);
    Ok(())
}

#[test]
fn each_put_fails_in_turn(rt: HostRuntime) -> Result<(), Fail> {
    let faults = "1 frame 1 fault\n2 frame 2 fault\n";
    let alloc = rt.alloc();
    breaks(&rt, alloc, 1, Status::PanelFault, "", 2)?;
    breaks(&rt, alloc, 2, Status::Noted, faults, 9)?;
    breaks(&rt, alloc, 3, Status::Noted, faults, 18)?;
    breaks(&rt, alloc, 4, Status::Noted, faults, 26)?;
    breaks(&rt, alloc, 5, Status::Noted, faults, 35)?;
    breaks(&rt, alloc, 6, Status::WriteFault, "", 39)
}

//! A white frame of 4 by 2 pixels, in slices of one line, with each call of the bus failing in turn.

use gui_edge::{MemSink, MemSource};
use panel_dcs::SimBus;
use scene_dcs::run_dcs;
use scene_run::Status;
use std::alloc::Global;
use std::test::Fail;

/// No turn, and the sizes.
const WORDS: [&str; 4] = ["0", "4", "2", "1"];

/// The file of the white frame.
const WHITE_FRAME: &[u8] =
    b"P6\n4 2\n255\n\xFF\xFF\xFF\xFF\xFF\xFF\xFF\xFF\xFF\xFF\xFF\xFF\xFF\xFF\xFF\xFF\xFF\xFF\xFF\xFF\
    \xFF\xFF\xFF\xFF";

/// What a run comes to.
#[derive(Drop)]
struct Ran {
    status: Status,
    log: MemSink,
    frames: MemSink,
}

/// Runs a script of one frame, with a bus of which the call of this number fails. It promises nothing: a test looks at
/// what the run came to.
fn run(alloc: Global, call: u64) -> Result<Ran, Fail> {
    let mut source = MemSource::new(Vec::from_slice(alloc, b"frame\n")?, 64, Vec::new(alloc));
    let mut log = MemSink::with_capacity(alloc, 64, Vec::new(alloc))?;
    let frames = MemSink::with_capacity(alloc, 64, Vec::new(alloc))?;
    let bus = SimBus::new(vec![in alloc; call]?);
    let (status, panel) = run_dcs(alloc, &WORDS, &mut source, &mut log, frames, bus);
    let (frames, _bus) = panel.into_parts();
    Ok(Ran {
        status,
        log,
        frames,
    })
}

/// Four calls open the bus; for each of two slices five start it and one sends its row. If one of the opening
/// fails, the run ends, if another does, the frame is at fault, and if none does, it is done.
#[test]
fn each_call_of_the_bus_fails_in_turn(rt: HostRuntime) -> Result<(), Fail> {
    for call in 1..=17 {
        let (status, log, file): (Status, &[u8], &[u8]) = if call <= 4 {
            (Status::PanelFault, b"", b"")
        } else if call <= 16 {
            (Status::Noted, b"1 frame 1 fault\n", b"")
        } else {
            (Status::Done, b"1 frame 1 done\n", WHITE_FRAME)
        };
        let ran = run(rt.alloc(), call)?;
        let same = ran.status == status && ran.log.bytes() == log && ran.frames.bytes() == file;
        assert!(rt; same, "call {call}");
    }
    Ok(())
}

//! Scenes in memory. The lines that are expected were worked out by hand.

ghost use Rattle.std.specs.Prelude.{◌<◌};

use gui_edge::{MemSink, MemSource};
use scene_json::{JsonStatus, run_json};
use std::alloc::Global;
use std::process::Abort;
use std::test::Fail;

const ONE_LABEL: &[u8] =
    b"{\"children\":[{\"id\":10,\"kind\":\"label\",\"text\":\"a\\\"b\",\"pos\":[1,2]}]}";

const ITS_LINES: &[u8] = b"new 10 3 label\npos 10 1 2\ntext 10 \"a\\\"b\"\n";

/// The scene of one label with the id 9, which no object may have.
const LOW_ID: &[u8] =
    b"{\"children\":[{\"id\":9,\"kind\":\"label\",\"text\":\"a\\\"b\",\"pos\":[1,2]}]}";

/// What is read, and how: the words, the scene, how many bytes a read gives at most, and the numbers of the read and of
/// the put that fail, from 1.
#[derive(Clone, Copy)]
struct Run<'a> {
    words: &'a [&'a str],
    scene: &'a [u8],
    piece: usize,
    read: u64,
    put: u64,
}

/// The scene of one label, with no call that fails.
const ONE: Run<'static> = Run {
    words: &[],
    scene: ONE_LABEL,
    piece: 64,
    read: 0,
    put: 0,
};

/// What that comes to: how it ended, and what was written.
fn written(alloc: Global, run: Run) -> Result<(JsonStatus, MemSink), Fail>
    requires { 0 < run.piece }
{
    let scene = Vec::from_slice(alloc, run.scene)?;
    let mut source = MemSource::new(scene, run.piece, vec![in alloc; run.read]?);
    let mut out = MemSink::with_capacity(alloc, 4096, vec![in alloc; run.put]?)?;
    let status = run_json(alloc, run.words, &mut source, &mut out);
    Ok((status, out))
}

/// It ends so, and so much is written.
fn check(
    rt: &impl Abort,
    alloc: Global,
    run: Run,
    status: JsonStatus,
    lines: &[u8],
) -> Result<(), Fail>
    requires { 0 < run.piece }
{
    let (ended, out) = written(alloc, run)?;
    assert_eq!(rt; ended, status);
    assert_eq!(rt; out.bytes(), lines);
    Ok(())
}

#[test]
fn a_scene_of_one_label(rt: HostRuntime) -> Result<(), Fail> {
    for piece in [1, 7, 4096] {
        let run = Run { piece, ..ONE };
        check(&rt, rt.alloc(), run, JsonStatus::Done, ITS_LINES)?;
    }
    Ok(())
}

#[test]
fn an_id_is_too_low(rt: HostRuntime) -> Result<(), Fail> {
    let run = Run {
        scene: LOW_ID,
        ..ONE
    };
    check(&rt, rt.alloc(), run, JsonStatus::Bad, b"")
}

#[test]
fn a_read_fails(rt: HostRuntime) -> Result<(), Fail> {
    let run = Run { read: 1, ..ONE };
    check(&rt, rt.alloc(), run, JsonStatus::ReadFault, b"")
}

#[test]
fn the_put_fails(rt: HostRuntime) -> Result<(), Fail> {
    // Half of the bytes of a put that fails come through.
    let half = ITS_LINES.split_at(20).0;
    let run = Run { put: 1, ..ONE };
    check(&rt, rt.alloc(), run, JsonStatus::WriteFault, half)
}

#[test]
fn there_is_a_word(rt: HostRuntime) -> Result<(), Fail> {
    let run = Run {
        words: &[""],
        ..ONE
    };
    check(&rt, rt.alloc(), run, JsonStatus::Usage, b"")
}

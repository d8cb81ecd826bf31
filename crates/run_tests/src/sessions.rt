//! A viewer of two white pixels, whose bytes come in pieces. What is expected was worked out by hand.
ghost use Rattle.std.specs.Prelude.{◌<◌};

use gui_edge::{MemSink, MemSource};
use rfb_view::RfbStatus;
use scene_rfb::run_rfb;
use std::alloc::Global;
use std::test::Fail;

/// No time passes at a request, and the panel has two pixels.
const WORDS: [&str; 4] = ["0", "2", "1", "1"];

/// An empty script, the greeting, and a request for the whole panel.
const WHOLE: &[u8] = b"rfb\nRFB 003.008\n\x01\x01\x03\x00\0\0\0\0\0\x02\0\x01";

/// What is sent to a viewer before its first message, with the pixels of the whole panel in white.
const TWO_WHITE: &[u8] =
    b"RFB 003.008\n\x01\x01\0\0\0\0\0\x02\0\x01\x10\x10\0\x01\0\x1F\0\x3F\0\x1F\x0B\x05\0\0\0\0\0\0\0\x05scene\
    \0\0\0\x01\0\0\0\0\0\x02\0\x01\0\0\0\0\xFF\xFF\xFF\xFF";

/// What the session comes to if a read gives at most `piece` bytes: how it ended, and what was sent.
fn sent(alloc: Global, piece: usize) -> Result<(RfbStatus, MemSink), Fail>
    requires { 0 < piece }
{
    let mut source = MemSource::new(Vec::from_slice(alloc, WHOLE)?, piece, Vec::new(alloc));
    let mut out = MemSink::with_capacity(alloc, 128, Vec::new(alloc))?;
    let mut log = MemSink::with_capacity(alloc, 64, Vec::new(alloc))?;
    let status = run_rfb(alloc, &WORDS, &mut source, &mut out, &mut log);
    Ok((status, out))
}

#[test]
fn a_request_is_answered_however_the_bytes_are_cut(rt: HostRuntime) -> Result<(), Fail> {
    for piece in [1, 2, 7, 4096] {
        let (status, out) = sent(rt.alloc(), piece)?;
        let same = status == RfbStatus::Done && out.bytes() == TWO_WHITE;
        assert!(rt; same, "pieces of {piece}");
    }
    Ok(())
}

//! Fonts in memory. The texts and lines that are expected were worked out by hand.
ghost use Rattle.std.specs.Prelude.{◌<◌};

use bdf_font::{BdfStatus, run_bdf};
use gui_edge::{MemSink, MemSource};
use std::alloc::Global;
use std::process::Abort;

const ONE_GLYPH: &[u8] =
    b"STARTFONT 2.1\nFONTBOUNDINGBOX 3 5 0 -1\nCHARS 1\nSTARTCHAR A\nENCODING 65\nDWIDTH 4 0\n\
    BBX 3 4 0 0\nBITMAP\n40\nA0\nE0\nA0\nENDCHAR\nENDFONT\n";

const ITS_LINES: &[u8] = b"font 1 5 3\nglyph 1 65 4 3 4 0 0 40A0E0A0\nendfont 1\n# left out 0\n";

/// The font of one glyph without the last row of its bitmap.
const ROW_MISSING: &[u8] =
    b"STARTFONT 2.1\nFONTBOUNDINGBOX 3 5 0 -1\nCHARS 1\nSTARTCHAR A\nENCODING 65\nDWIDTH 4 0\n\
    BBX 3 4 0 0\nBITMAP\n40\nA0\nE0\nENDCHAR\nENDFONT\n";

/// What is read, and how: the word, the font, how many bytes a read gives at most, and the numbers of the read and of
/// the put that fail, from 1.
#[derive(Clone, Copy)]
struct Run<'a> {
    word: &'a str,
    font: &'a [u8],
    piece: usize,
    read: u64,
    put: u64,
}

/// The font of one glyph as font 1, with no call that fails.
const ONE: Run<'static> = Run {
    word: "1",
    font: ONE_GLYPH,
    piece: 64,
    read: 0,
    put: 0,
};

/// It ends so, and so much is written.
fn check(rt: &impl Abort, alloc: Global, run: Run, status: BdfStatus, lines: &[u8])
    requires { 0 < run.piece }
{
    let font = Vec::from_slice(alloc, run.font).expect(rt, "no memory");
    let reads = vec![in alloc; run.read].expect(rt, "no memory");
    let puts = vec![in alloc; run.put].expect(rt, "no memory");
    let mut source = MemSource::new(font, run.piece, reads);
    let mut out = MemSink::with_capacity(alloc, 4096, puts).expect(rt, "no memory");
    let ended = run_bdf(alloc, &[run.word], &mut source, &mut out);
    assert_eq!(rt; (ended, out.bytes()), (status, lines));
}

#[test]
fn a_font_of_one_glyph(rt: HostRuntime) {
    for piece in [1, 7, 4096] {
        let run = Run { piece, ..ONE };
        check(&rt, rt.alloc(), run, BdfStatus::Done, ITS_LINES);
    }
}

#[test]
fn a_row_is_missing(rt: HostRuntime) {
    let run = Run {
        font: ROW_MISSING,
        ..ONE
    };
    check(&rt, rt.alloc(), run, BdfStatus::Bad { line: 12 }, b"");
}

#[test]
fn a_read_fails(rt: HostRuntime) {
    let run = Run { read: 2, ..ONE };
    check(&rt, rt.alloc(), run, BdfStatus::ReadFault, b"");
}

#[test]
fn the_put_fails(rt: HostRuntime) {
    let run = Run { put: 1, ..ONE };
    // Half of the bytes of a put that fails come through.
    let half = ITS_LINES.split_at(32).0;
    check(&rt, rt.alloc(), run, BdfStatus::WriteFault, half);
}

#[test]
fn words_that_are_no_number_of_a_font(rt: HostRuntime) {
    for word in ["0", "100", "01", "-1", "x", ""] {
        let run = Run { word, ..ONE };
        check(&rt, rt.alloc(), run, BdfStatus::Usage, b"");
    }
}

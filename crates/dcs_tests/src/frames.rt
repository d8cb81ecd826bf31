//! A white frame of 4 by 2 pixels, sent in two transfers of one line, on each turn, and with each call of the bus failing.
ghost use Rattle.std.specs.Prelude.{◌≡◌, ◌≤◌, None, pos};
ghost use Rattle.gui_base.specs.Area.{area_at};

use crate::sending::{line, send};
use gui_base::{Block, Rgb565};
use gui_color::DrawBuf;
use gui_edge::{MemSink, Panel};
use panel_dcs::{DcsPanel, SimBus};
use std::alloc::Global;
use std::marker::Brand;
use std::process::Abort;
use std::sync::ledger::Blank;
use std::test::Fail;

/// The file of the white frame.
const WHITE_FRAME: &[u8] =
    b"P6\n4 2\n255\n\xFF\xFF\xFF\xFF\xFF\xFF\xFF\xFF\xFF\xFF\xFF\xFF\xFF\xFF\xFF\xFF\xFF\xFF\xFF\xFF\
    \xFF\xFF\xFF\xFF";

/// How many calls of the bus each turn takes: four to open it, and for each of two transfers five to start it and one
/// for each row of the device.
const CALLS: [u64; 4] = [16, 22, 16, 22];

/// A line of the frame.
const WHITE: [Rgb565; 4] = [Rgb565(0xFFFF); 4];

/// Opens a panel, sends the lines and presents the frame, and tells how many of these four came through, up to the
/// first that did not.
fn show<P: Panel>(alloc: Global, panel: &mut P, first: DrawBuf, second: DrawBuf) -> u8
    requires closed { (P.state panel.old).limit ≡ 0 }
    requires free { (P.state panel.old).coming ≡ None }
    requires first { first.area ≡ area_at (pos 0) (pos 0) 4 1 }
    requires second { second.area ≡ area_at (pos 0) (pos 1) 4 1 }
{
    if panel.open(alloc, 4, 2, 4, Block { w: 1, h: 1 }).is_err() {
        0
    } else if !send(panel, first, 4) {
        1
    } else if !send(panel, second, 4) {
        2
    } else if panel.present().is_err() {
        3
    } else {
        4
    }
}

/// Shows two lines and presents them on a panel with this turn, whose bus fails at the call of this number. The
/// values are how many of the four calls came through, and the file that was presented.
fn shown(alloc: Global, turn: u8, call: u64) -> Result<(u8, MemSink), Fail>
    requires { turn ≤ 3 }
{
    let first = line::<Brand>(alloc, 0, 0, &WHITE, Blank::new(1))?;
    let second = line::<Brand>(alloc, 0, 1, &WHITE, Blank::new(1))?;
    let frames = MemSink::with_capacity(alloc, 64, Vec::new(alloc))?;
    let mut panel = DcsPanel::new(frames, SimBus::new(vec![in alloc; call]?), turn);
    let came = show(alloc, &mut panel, first, second);
    let (frames, _bus) = panel.into_parts();
    Ok((came, frames))
}

/// On a turn with the call of this number failing so many of the four come through, and the file is presented
/// only if all do.
fn try_frame(rt: &impl Abort, alloc: Global, turn: u8, call: u64, expected: u8) -> Result<(), Fail>
    requires { turn ≤ 3 }
{
    let (came, frames) = shown(alloc, turn, call)?;
    let file: &[u8] = if expected == 4 { WHITE_FRAME } else { b"" };
    assert!(rt;
        came == expected && frames.bytes() == file,
        "turn {turn}, call {call}: {came}"
    );
    Ok(())
}

#[test]
fn a_frame_is_shown_on_each_turn(rt: HostRuntime) -> Result<(), Fail> {
    for turn in 0..4 {
        // No call has the number 0, nor the one after the last.
        try_frame(&rt, rt.alloc(), turn, 0, 4)?;
        try_frame(&rt, rt.alloc(), turn, CALLS[usize::from(turn)] + 1, 4)?;
    }
    Ok(())
}

#[test]
fn each_call_of_the_bus_fails_in_turn(rt: HostRuntime) -> Result<(), Fail> {
    for turn in 0..4 {
        let calls = CALLS[usize::from(turn)];
        for call in 1..=calls {
            let expected = if call <= 4 {
                0
            } else if call <= 4 + (calls - 4) / 2 {
                1
            } else {
                2
            };
            try_frame(&rt, rt.alloc(), turn, call, expected)?;
        }
    }
    Ok(())
}

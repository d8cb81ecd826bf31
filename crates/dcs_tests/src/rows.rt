//! The bytes that a transfer sends, turned and not. They were worked out by hand.
ghost use Rattle.std.specs.Prelude.{◌≡◌, ◌≤◌, None, pos};
ghost use Rattle.gui_base.specs.Area.{area_at};

use crate::sending::{line, send};
use gui_base::{Block, Rgb565};
use gui_color::DrawBuf;
use gui_edge::{MemSink, Panel};
use panel_dcs::{DcsPanel, LogBus};
use std::alloc::Global;
use std::marker::Brand;
use std::process::Abort;
use std::sync::ledger::Blank;
use std::test::Fail;

/// A byte of the bus, with true for a command.
type Byte = (bool, u8);

/// What comes first on each bus.
const OPENING: [Byte; 4] = [(true, 0x11), (true, 0x3A), (false, 0x55), (true, 0x29)];

/// Columns 1 and 2 of page 0, red and green.
const UPRIGHT: [Byte; 15] = [
    (true, 0x2A),
    (false, 0x00),
    (false, 0x01),
    (false, 0x00),
    (false, 0x02),
    (true, 0x2B),
    (false, 0x00),
    (false, 0x00),
    (false, 0x00),
    (false, 0x00),
    (true, 0x2C),
    (false, 0xF8),
    (false, 0x00),
    (false, 0x07),
    (false, 0xE0),
];

/// Column 1 of pages 1 and 2, red and green.
const QUARTER: [Byte; 15] = [
    (true, 0x2A),
    (false, 0x00),
    (false, 0x01),
    (false, 0x00),
    (false, 0x01),
    (true, 0x2B),
    (false, 0x00),
    (false, 0x01),
    (false, 0x00),
    (false, 0x02),
    (true, 0x2C),
    (false, 0xF8),
    (false, 0x00),
    (false, 0x07),
    (false, 0xE0),
];

/// Opens a panel of 4 by 2 pixels, sends a buffer, by at most two polls, and tells whether all of it came through.
fn show<P: Panel>(alloc: Global, panel: &mut P, buf: DrawBuf) -> bool
    requires closed { (P.state panel.old).limit ≡ 0 }
    requires free { (P.state panel.old).coming ≡ None }
    requires area { buf.area ≡ area_at (pos 1) (pos 0) 2 1 }
{
    panel.open(alloc, 4, 2, 8, Block { w: 1, h: 1 }).is_ok() && send(panel, buf, 2)
}

/// The bus after a red pixel at column 1 of line 0 and a green one beside it were sent on a turn, and whether they came
/// through.
fn sent(alloc: Global, turn: u8) -> Result<(bool, LogBus), Fail>
    requires { turn ≤ 3 }
{
    let buf = line::<Brand>(
        alloc,
        1,
        0,
        &[Rgb565(0xF800), Rgb565(0x07E0)],
        Blank::new(1),
    )?;
    let frames = MemSink::with_capacity(alloc, 64, Vec::new(alloc))?;
    let bus = LogBus::with_capacity(alloc, 1000, Vec::new(alloc))?;
    let mut panel = DcsPanel::new(frames, bus, turn);
    let came = show(alloc, &mut panel, buf);
    let (_frames, bus) = panel.into_parts();
    Ok((came, bus))
}

/// How many of these bytes a bus has kept from a place on, up to the first that it has not.
fn count_kept(bus: &LogBus, from: usize, bytes: &[Byte]) -> usize
    requires { from ≤ 4 }
{
    for (i, byte) in bytes.iter().enumerate() {
        if bus.nth(from + i) != Some(*byte) {
            return i;
        }
    }
    bytes.len()
}

/// The bus has kept the bytes of the opening and these, and no more.
fn check_kept(rt: &impl Abort, bus: &LogBus, expected: &[Byte; 15]) {
    assert_eq!(rt; count_kept(bus, 0, &OPENING), 4);
    assert_eq!(rt; count_kept(bus, 4, expected), 15);
    assert_eq!(rt; bus.nth(19), None);
}

/// On a turn the buffer comes through, and these are its bytes.
fn check_transfer(
    rt: &impl Abort,
    alloc: Global,
    turn: u8,
    expected: &[Byte; 15],
) -> Result<(), Fail>
    requires { turn ≤ 3 }
{
    let (came, bus) = sent(alloc, turn)?;
    assert!(rt; came);
    check_kept(rt, &bus, expected);
    Ok(())
}

#[test]
fn a_row_of_two_pixels_is_sent_as_one_row(rt: HostRuntime) -> Result<(), Fail> {
    check_transfer(&rt, rt.alloc(), 0, &UPRIGHT)
}

#[test]
fn by_a_quarter_it_is_sent_as_two_rows(rt: HostRuntime) -> Result<(), Fail> {
    check_transfer(&rt, rt.alloc(), 1, &QUARTER)
}

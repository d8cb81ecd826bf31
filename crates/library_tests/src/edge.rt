//! What no clause says: what the adapters make of a reader's and a writer's answers, and the numbers of
//! faults and colours from outside.
ghost use Rattle.std.specs.Prelude.{◌≡◌, ◌≤◌, ◌<◌, None, true, false, pos, IfOk, OnOk};
ghost use Rattle.gui_base.specs.Area.{area_at, is_empty, is_within, size_of};
ghost use Rattle.gui_base.specs.Corners.{rect_of};
ghost use Rattle.gui_base.specs.Grids.{one_pixel};
ghost use Rattle.gui_edge.specs.Panel.{CanStart};

use gui_base::{Area, Block, Rgb565, Steps};
use gui_color::DrawBuf;
use gui_edge::{
    Failed, MemSink, MemSource, OpenFault, Panel, Polled, SimPanel, SimPlan, Sink, Source, StdSink,
    StdSource,
};
use std::alloc::Global;
use std::io;
use std::io::{ErrorKind, Read, Write};
use std::marker::Brand;
use std::process::Abort;
use std::sync::ledger::{Blank, Ledger};
use std::test::Fail;

/// Moves so many bytes at each call, or fails if none is said, and after the last turn moves none.
#[derive(Drop)]
struct Device {
    turns: &'static [Option<usize>],
    moved: u64,
}

impl Device {
    fn new(turns: &'static [Option<usize>]) -> Device {
        Device { turns, moved: 0 }
    }

    fn turn(&mut self, room: usize) -> io::Result<usize>
        ensures { IfOk result (λ count. count ≤ room) }
    {
        if self.turns.is_empty() {
            return Ok(0);
        }
        let turn = self.turns[0];
        self.turns = &self.turns[1..];
        let Some(most) = turn else {
            return Err(ErrorKind::Interrupted.into());
        };
        let count = most.min(room);
        self.moved = self.moved.saturating_add(count as u64);
        Ok(count)
    }
}

impl Read for Device {
    fn read(&mut self, buf: &mut [u8]) -> io::Result<usize> {
        self.turn(buf.len())
    }
}

impl Write for Device {
    fn write(&mut self, buf: &[u8]) -> io::Result<usize> {
        self.turn(buf.len())
    }

    fn flush(&mut self) -> io::Result<()> {
        Ok(())
    }
}

/// Compares how many bytes a source gave, or that it failed.
fn check_read(rt: &impl Abort, got: Result<usize, Failed>, want: Result<usize, Failed>) {
    assert_eq!(rt; got, want);
}

/// Compares whether a sink or a panel did what it was asked for.
fn check_done(rt: &impl Abort, got: Result<(), Failed>, want: Result<(), Failed>) {
    assert_eq!(rt; got, want);
}

#[test]
fn a_reader_fails_once(rt: HostRuntime) {
    let mut source = StdSource::new(Device::new(&[Some(2), None, Some(9)]));
    let mut buf = [0; 4];
    check_read(&rt, source.read(&mut buf), Ok(2));
    check_read(&rt, source.read(&mut buf), Err(Failed));
    check_read(&rt, source.read(&mut buf), Ok(4));
    check_read(&rt, source.read(&mut buf), Ok(0));
}

#[test]
fn a_writer_takes_parts_and_fails(rt: HostRuntime) {
    let mut device = Device::new(&[Some(2), Some(1), Some(1), None, Some(2), Some(0), Some(3)]);
    let mut sink = StdSink::new(&mut device);
    check_done(&rt, sink.put(b"abc"), Ok(()));
    check_done(&rt, sink.put(b"abc"), Err(Failed));
    check_done(&rt, sink.put(b"abc"), Err(Failed));
    check_done(&rt, sink.put(b"abc"), Ok(()));
    assert_eq!(rt; device.moved, 9);
}

/// Reads at most three of five bytes at a time; the second read fails.
fn five_bytes(alloc: Global) -> Result<MemSource, Fail> {
    let bytes = Vec::from_slice(alloc, b"abcde")?;
    Ok(MemSource::new(bytes, 3, vec![in alloc; 2]?))
}

/// Has room for eight bytes; the first put fails.
fn eight_bytes(alloc: Global) -> Result<MemSink, Fail> {
    let fails = vec![in alloc; 1]?;
    Ok(MemSink::with_capacity(alloc, 8, fails)?)
}

/// What is read comes to the sink, and what fails leaves both as they were but for what fitted.
fn give_and_take(rt: &impl Abort, source: &mut MemSource, sink: &mut MemSink) {
    let mut buf = [0; 4];
    check_read(rt, source.read(&mut buf), Ok(3));
    check_done(rt, sink.put(&buf[..3]), Err(Failed));
    check_done(rt, sink.put(&buf[..3]), Ok(()));
    check_read(rt, source.read(&mut buf), Err(Failed));
    check_read(rt, source.read(&mut buf), Ok(2));
    check_done(rt, sink.put(b"123456"), Err(Failed));
    assert_eq!(rt; sink.bytes(), &b"aabc1234"[..]);
}

#[test]
fn memory_gives_and_takes(rt: HostRuntime) -> Result<(), Fail> {
    let mut source = five_bytes(rt.alloc())?;
    let mut sink = eight_bytes(rt.alloc())?;
    give_and_take(&rt, &mut source, &mut sink);
    Ok(())
}

/// A buffer of two pixels that is black in an area.
fn black_buffer<L: Ledger>(alloc: Global, area: Area, blank: Blank) -> Result<DrawBuf, Fail>
    requires name { blank.name ≡ L.name }
    requires parts { blank.parts ≡ L.parts }
    requires share { 0 < blank.parts }
    requires some { is_empty (rect_of area) ≡ false }
    requires two { size_of (rect_of area) ≡ 2 }
    ensures { IfOk result (λ buf. buf.area ≡ rect_of area) }
{
    let (book, all) = blank.open::<L>();
    let mut steps = Steps::new(book, all);
    let mut buf = DrawBuf::open(alloc, 2)?;
    buf.begin(area, &mut steps);
    Ok(buf)
}

/// A buffer of two pixels that is black in an area. Nobody counts its steps.
fn black(alloc: Global, area: Area) -> Result<DrawBuf, Fail>
    requires some { is_empty (rect_of area) ≡ false }
    requires two { size_of (rect_of area) ≡ 2 }
    ensures { IfOk result (λ buf. buf.area ≡ rect_of area) }
{
    black_buffer::<Brand>(alloc, area, Blank::new(1))
}

/// A plan by which the first opening, the second start and the second poll fail.
fn plan(alloc: Global) -> Result<SimPlan, Fail>
    ensures { IfOk result (λ it. it.fail_open ≡ true) }
{
    let fail_flush = vec![in alloc; 2]?;
    let fail_poll = vec![in alloc; 2]?;
    Ok(SimPlan {
        fail_open: true,
        fail_flush,
        fail_poll,
        moves: Vec::new(alloc),
    })
}

/// A panel of two by two pixels that follows this plan, and is opened at the second try.
fn small_panel(alloc: Global) -> Result<SimPanel<MemSink>, Fail>
    ensures sizes { IfOk result (λ it. (it.width ≡ 2) × (it.height ≡ 2) × (it.limit ≡ 4)) }
    ensures blocks { IfOk result (λ it. it.block ≡ one_pixel) }
    ensures still { IfOk result (λ it. it.coming ≡ None) }
{
    let frames = MemSink::with_capacity(alloc, 64, Vec::new(alloc))?;
    let mut panel = SimPanel::new(frames, plan(alloc)?);
    let first = panel.open(alloc, 2, 2, 4, Block { w: 1, h: 1 });
    match first {
        Err(OpenFault::Failed) => {}
        _ => return Err(Fail::from("the first opening does not fail")),
    }
    panel.open(alloc, 2, 2, 4, Block { w: 1, h: 1 })?;
    Ok(panel)
}

/// Sends a buffer, and tells whether its colours arrive.
fn send(panel: &mut SimPanel<MemSink>, buf: DrawBuf) -> Result<bool, Fail>
    requires free { panel.old.coming ≡ None }
    requires area { CanStart (⟦<SimPanel<MemSink> as Panel>⟧.state panel.old) buf }
    ensures sizes { (panel.new.width ≡ panel.old.width) × (panel.new.height ≡ panel.old.height)
        × (panel.new.limit ≡ panel.old.limit) }
    ensures blocks { panel.new.block ≡ panel.old.block }
    ensures still { IfOk result (λ it. panel.new.coming ≡ None) }
{
    match panel.start(buf) {
        Err(_) => Ok(false),
        Ok(()) => match panel.poll() {
            Polled::Ready(_) => Ok(true),
            Polled::Failed(_) => Ok(false),
            Polled::NotYet => Err(Fail::from("a poll moves a part alone")),
        },
    }
}

/// Sends black to two of the four pixels, and tells whether they show it.
fn send_black(alloc: Global, panel: &mut SimPanel<MemSink>, area: Area) -> Result<bool, Fail>
    requires sizes { (panel.old.width ≡ 2) × (panel.old.height ≡ 2) × (panel.old.limit ≡ 4) }
    requires blocks { panel.old.block ≡ one_pixel }
    requires free { panel.old.coming ≡ None }
    requires some { is_empty (rect_of area) ≡ false }
    requires two { size_of (rect_of area) ≡ 2 }
    requires inside { is_within (area_at (pos 0) (pos 0) 2 2) (rect_of area) ≡ true }
    ensures sizes { (panel.new.width ≡ 2) × (panel.new.height ≡ 2) × (panel.new.limit ≡ 4) }
    ensures blocks { panel.new.block ≡ one_pixel }
    ensures still { IfOk result (λ it. panel.new.coming ≡ None) }
{
    let buf = black(alloc, area)?;
    send(panel, buf)
}

/// Whether the panel shows these colours.
fn shows(panel: &SimPanel<MemSink>, colors: [u16; 4]) -> bool
    requires { (panel.now.width ≡ 2) × (panel.now.height ≡ 2) }
{
    [
        panel.shown(0, 0).0,
        panel.shown(1, 0).0,
        panel.shown(0, 1).0,
        panel.shown(1, 1).0,
    ] == colors
}

/// Sends the lower line, and then the right column until it arrives.
fn send_all(rt: &impl Abort, alloc: Global, panel: &mut SimPanel<MemSink>) -> Result<(), Fail>
    requires sizes { (panel.old.width ≡ 2) × (panel.old.height ≡ 2) × (panel.old.limit ≡ 4) }
    requires blocks { panel.old.block ≡ one_pixel }
    requires free { panel.old.coming ≡ None }
    ensures opened { panel.new.limit ≡ 4 }
    ensures still { IfOk result (λ it. panel.new.coming ≡ None) }
{
    let column = Area::at(1, 0, 1, 2);
    assert!(rt; send_black(alloc, panel, Area::at(0, 1, 2, 1))?);
    assert!(rt; shows(panel, [0xA5A5, 0xA5A5, 0, 0]));
    assert!(rt; !send_black(alloc, panel, column)?);
    assert!(rt; shows(panel, [0xA5A5, 0x5A5A, 0, 0x5A5A]));
    assert!(rt; !send_black(alloc, panel, column)?);
    assert!(rt; send_black(alloc, panel, column)?);
    Ok(())
}

/// Presents to a sink in memory. If that is Ok, no put failed, which its count of faults tells.
fn present(panel: &mut SimPanel<MemSink>) -> Result<(), Failed>
    requires opened { 0 < panel.old.limit }
    requires still { panel.old.coming ≡ None }
    ensures { OnOk result (panel.new.frames.faults ≡ panel.old.frames.faults) }
{
    panel.present()
}

#[test]
fn a_panel_shows_and_presents(rt: HostRuntime) -> Result<(), Fail> {
    let alloc = rt.alloc();
    let mut panel = small_panel(alloc)?;
    send_all(&rt, alloc, &mut panel)?;
    assert_eq!(rt; panel.sent(), 8);
    check_done(&rt, present(&mut panel), Ok(()));
    let frames = panel.into_frames();
    assert_eq!(rt;
        frames.bytes(),
        &b"P6\n2 2\n255\n\xA5\xB6\x29\0\0\0\0\0\0\0\0\0"[..]
    );
    Ok(())
}

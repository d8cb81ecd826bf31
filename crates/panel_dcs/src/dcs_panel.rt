//! A panel over a bus.
ghost use Rattle.std.specs.Prelude.{◌≡◌, ◌≤◌, ◌<◌, IsSome, None, OnOk, OnErr, IfErr};
ghost use Rattle.std.specs.Option.{ForSome};
ghost use Rattle.gui_base.specs.Gridded.{size_in};
ghost use Rattle.gui_edge.specs.Causes.{HasCause, Rose};
ghost use Rattle.gui_edge.specs.Panel.{CanOpen, OpenAnswer, PollAnswer, CanStart, Starts, Started, StartFailed};
ghost use Rattle.gui_edge.specs.Panel.{Presents, WritesFrame, WritesPrefix};
ghost use Rattle.panel_dcs.specs.Bus.{Feeds};
ghost use Rattle.panel_dcs.specs.DcsPanel.{dcs_state, unopened, resized, Fits, OpensBus, PollSends, PollCounts, each_of};
ghost use Rattle.panel_dcs.specs.Polls.{window_of};
ghost use Rattle.panel_dcs.specs.Transfers.{start_bytes};
ghost use Rattle.panel_dcs.specs.Turning.{turned, columns_of, pages_of, quarters};

use crate::bus::Bus;
use crate::picture::write_shown;
use crate::row::{row_bytes, rows_of, window_of};
use crate::transfer::{send_opening, send_start};
use crate::turn::{Sizes, Turn};
use gui_base::Block;
use gui_color::DrawBuf;
use gui_edge::{Failed, OpenFault, Panel, Polled, Sink};
use std::alloc::Global;
use std::marker::Model;

/// How many columns the device of a panel has.
fn columns_of(sizes: Sizes) -> u16
    ensures { result ≡ columns_of (turned sizes) }
{
    match sizes.turn {
        Turn::Upright | Turn::Half => sizes.width,
        Turn::Quarter | Turn::ThreeQuarters => sizes.height,
    }
}

/// How many pages it has.
fn pages_of(sizes: Sizes) -> u16
    ensures { result ≡ pages_of (turned sizes) }
{
    match sizes.turn {
        Turn::Upright | Turn::Half => sizes.height,
        Turn::Quarter | Turn::ThreeQuarters => sizes.width,
    }
}

/// A panel over a bus to a controller, turned on its device. A transfer goes row by row of the device, a row at
/// each poll. Its frames, picture files of the form P6, go to a sink. As a panel it tells what it shows if the
/// bus tells its controller, and counts the faults of its bus and of its sink.
#[derive(Drop)]
pub struct DcsPanel<F: Sink, B: Bus> {
    frames: F,
    bus: B,
    sizes: Sizes,
    limit: u32,
    block: Block,
    coming: Option<DrawBuf>,
    row: u32,
    sent: u64,
    waits: u64,
    ghost flying: { ForSome coming (Fits sizes.width sizes.height limit (size_in block)) },
}

impl<F: Sink, B: Bus> Model for DcsPanel<F, B> {
    ghost use Rattle.gui_base.specs.Gridded.{size_in};
    ghost use Rattle.panel_dcs.specs.DcsPanel.{DcsValue, IsDcs};
    ghost use Rattle.panel_dcs.specs.Turning.{turned};

    ghost Value = { DcsValue F B };

    ghost view = { λ p. record {
      state = record {
        frames = p.frames;
        bus = p.bus;
        turned = turned p.sizes;
        limit = p.limit;
        block = size_in p.block;
        coming = p.coming;
        row = p.row;
        sent = p.sent;
        waits = p.waits;
      };
      flying = p.flying;
    } };

    ghost invariant = { λ p. IsDcs (turned p.sizes) p.limit (B.state p.bus) p.coming p.row };
}

impl<F: Sink, B: Bus> DcsPanel<F, B> {
    /// A panel that is not opened, over a sink and a bus that is not opened, turned by so many quarters, at
    /// most 3. A turn tells the column and the page of the device at which the pixel (x, y) stands. For a panel
    /// of `width` by `height` pixels they are (x, y), (height - 1 - y, x), (width - 1 - x, height - 1 - y) or
    /// (y, width - 1 - x).
    pub fn new(frames: F, bus: B, turn: u8) -> DcsPanel<F, B>
        requires turn { turn ≤ 3 }
        requires closed { (B.state bus).columns ≡ 0 }
        ensures { result.state ≡ unopened frames bus (quarters turn) }
    {
        DcsPanel {
            frames,
            bus,
            sizes: Sizes {
                turn: Turn::from_quarters(turn),
                width: 0,
                height: 0,
            },
            limit: 0,
            block: Block { w: 1, h: 1 },
            coming: None,
            row: 0,
            sent: 0,
            waits: 0,
        }
    }

    /// Its sink and its bus.
    pub fn into_parts(self) -> (F, B)
        ensures frames { result.0 ≡ self.state.frames }
        ensures bus { result.1 ≡ self.state.bus }
    {
        (self.frames, self.bus)
    }

    /// Opens the bus in the device's sizes, and sends what the controller wants to hear first.
    fn open_bus(
        &mut self,
        alloc: Global,
        width: u16,
        height: u16,
        limit: u32,
        block: Block,
    ) -> Result<(), OpenFault>
        requires closed { self.old.state.limit ≡ 0 }
        requires sizes { CanOpen width height limit }
        ensures answer { OpenAnswer (dcs_state F.state B.state self.old.state)
            (dcs_state F.state B.state self.new.state) width height limit (size_in block) result }
        ensures opened { OnOk result (OpensBus (resized self.old.state.turned width height)
            (B.state self.old.state.bus) (B.state self.new.state.bus)) }
    {
        let sizes = Sizes {
            turn: self.sizes.turn,
            width,
            height,
        };
        match self.bus.open(alloc, columns_of(sizes), pages_of(sizes)) {
            Err(OpenFault::Failed) => Err(OpenFault::Failed),
            Err(OpenFault::NoMemory) => Err(OpenFault::NoMemory),
            Ok(()) => match send_opening(&mut self.bus) {
                Err(Failed) => Err(OpenFault::Failed),
                Ok(()) => {
                    self.sizes = sizes;
                    self.limit = limit;
                    self.block = block;
                    Ok(())
                }
            },
        }
    }

    /// Starts to send a buffer.
    fn start_rows(&mut self, buf: DrawBuf) -> Result<(), (Failed, DrawBuf)>
        requires free { self.old.state.coming ≡ None }
        requires area { CanStart (dcs_state F.state B.state self.old.state) buf }
        ensures same { Starts (dcs_state F.state B.state self.old.state) (dcs_state F.state B.state self.new.state) buf }
        ensures ok { OnOk result (Started (dcs_state F.state B.state self.old.state) (dcs_state F.state B.state self.new.state) buf) }
        ensures err { IfErr result (λ e.
            StartFailed (dcs_state F.state B.state self.old.state) (dcs_state F.state B.state self.new.state) buf e.1) }
        ensures sent { OnOk result (Feeds (B.state self.old.state.bus) (B.state self.new.state.bus)
            (start_bytes (window_of self.old.state.turned buf.area))) }
        ensures rows { OnOk result (self.new.state.row ≡ 0) }
    {
        let area = buf.area();
        match send_start(&mut self.bus, window_of(self.sizes, area)) {
            Err(Failed) => {
                self.sent = self.sent.saturating_add(area.size());
                Err((Failed, buf))
            }
            Ok(()) => {
                self.sent = self.sent.saturating_add(area.size());
                self.row = 0;
                self.coming = Some(buf);
                Ok(())
            }
        }
    }

    /// Sends the next row of the buffer in flight.
    fn poll_row(&mut self) -> Polled
        requires { IsSome self.old.state.coming }
        ensures answer { PollAnswer (dcs_state F.state B.state self.old.state) (dcs_state F.state B.state self.new.state) result }
        ensures sent { PollSends self.old.state.turned (B.state self.old.state.bus) (B.state self.new.state.bus)
            self.old.state.coming self.old.state.row result }
        ensures rows { PollCounts self.old.state.turned self.old.state.row self.new.state.row result }
    {
        match self.coming.take() {
            None => unreachable!(),
            Some(buf) => {
                let bytes = row_bytes(self.sizes, &buf, self.row);
                match self.bus.data(bytes.as_slice()) {
                    Err(Failed) => Polled::Failed(buf),
                    Ok(()) => {
                        let rows = rows_of(self.sizes, &buf);
                        self.row += 1;
                        if self.row == rows {
                            return Polled::Ready(buf);
                        }
                        self.coming = Some(buf);
                        self.waits = self.waits.saturating_add(1);
                        Polled::NotYet
                    }
                }
            }
        }
    }
}

impl<F: Sink, B: Bus> Panel for DcsPanel<F, B> {
    ghost state = { λ p. dcs_state F.state B.state p.state };

    /// Opens the bus in the device's sizes, and sends what the controller wants to hear first: command 11,
    /// command 3A with the byte 55, and command 29. It fails exactly if one of these calls does.
    fn open(
        &mut self,
        alloc: Global,
        width: u16,
        height: u16,
        limit: u32,
        block: Block,
    ) -> Result<(), OpenFault>
        requires closed { self.old.state.limit ≡ 0 }
        requires sizes { CanOpen width height limit }
        ensures answer { OpenAnswer (dcs_state F.state B.state self.old.state)
            (dcs_state F.state B.state self.new.state) width height limit (size_in block) result }

        ensures opened { OnOk result (OpensBus (resized self.old.state.turned width height)
            (B.state self.old.state.bus) (B.state self.new.state.bus)) }
    {
        self.open_bus(alloc, width, height, limit, block)
    }

    /// Sends the columns and the pages of the turned area, and that colours come: commands 2A, 2B and 2C.
    fn start(&mut self, buf: DrawBuf) -> Result<(), (Failed, DrawBuf)>
        requires free { self.old.state.coming ≡ None }
        requires area { CanStart (dcs_state F.state B.state self.old.state) buf }
        ensures same { Starts (dcs_state F.state B.state self.old.state)
            (dcs_state F.state B.state self.new.state) buf }
        ensures ok { OnOk result (Started (dcs_state F.state B.state self.old.state)
            (dcs_state F.state B.state self.new.state) buf) }
        ensures err { IfErr result (λ e. StartFailed (dcs_state F.state B.state self.old.state)
            (dcs_state F.state B.state self.new.state) buf e.1) }

        ensures sent { OnOk result (Feeds (B.state self.old.state.bus) (B.state self.new.state.bus)
            (start_bytes (window_of self.old.state.turned buf.area))) }
        ensures rows { OnOk result (self.new.state.row ≡ 0) }
    {
        self.start_rows(buf)
    }

    /// Sends the next row of the device: the colours of the buffer's pixels from its first column to its last, two
    /// bytes for each, high byte first. With the last row the transfer has ended.
    fn poll(&mut self) -> Polled
        requires { IsSome self.old.state.coming }
        ensures answer { PollAnswer (dcs_state F.state B.state self.old.state)
            (dcs_state F.state B.state self.new.state) result }

        ensures sent { PollSends self.old.state.turned (B.state self.old.state.bus) (B.state self.new.state.bus)
            self.old.state.coming self.old.state.row result }
        ensures rows { PollCounts self.old.state.turned self.old.state.row self.new.state.row result }
    {
        self.poll_row()
    }

    /// Presents what the controller's memory shows. Nothing is sent.
    fn present(&mut self) -> Result<(), Failed>
        requires opened { 0 < self.old.state.limit }
        requires still { self.old.state.coming ≡ None }
        ensures same { Presents (dcs_state F.state B.state self.old.state)
            (dcs_state F.state B.state self.new.state) }
        ensures ok { OnOk result (WritesFrame (dcs_state F.state B.state self.old.state)
            (dcs_state F.state B.state self.new.state)) }
        ensures err { OnErr result (WritesPrefix (dcs_state F.state B.state self.old.state)
            (dcs_state F.state B.state self.new.state)) }
        ensures cause { OnErr result (Rose (F.state self.old.state.frames).faults
            (F.state self.new.state.frames).faults) }

        ensures bus { self.new.state.bus ≡ self.old.state.bus }
    {
        write_shown(&mut self.frames, &self.bus, self.sizes)
    }

    ghost each = { λ p. each_of p.state.turned (B.state p.state.bus).chip };

    ghost flying = { λ p buf is. let f = p.flying buf is in record {
      inside = f.inside;
      small = f.small;
      blocks = f.blocks;
    } };
}

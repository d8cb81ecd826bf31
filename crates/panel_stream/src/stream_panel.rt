//! The panel.
ghost use Rattle.std.specs.Prelude.{◌≡◌, ◌≤◌, ◌<◌, IsSome, IfSome, None, OnOk, OnErr, IfErr};
ghost use Rattle.std.specs.Option.{ForSome};
ghost use Rattle.std.specs.Io.KnownBytes.{Appends};
ghost use Rattle.gui_base.specs.Gridded.{size_in};
ghost use Rattle.gui_edge.specs.Causes.{Rose};
ghost use Rattle.gui_edge.specs.Panel.{CanOpen, OpenAnswer, PollAnswer, CanStart, Starts, Started, StartFailed};
ghost use Rattle.gui_edge.specs.Panel.{Presents, WritesFrame, WritesPrefix};
ghost use Rattle.panel_stream.specs.StreamPanel.{stream_state, unopened, Fits, AreWhole, IsStreaming, each_of};

use crate::steady::Steady;
use crate::writing::{sizes_bytes, write_area};
use gui_base::{Block, Steps};
use gui_color::DrawBuf;
use gui_edge::{Failed, OpenFault, Panel, Polled, Sink};
use std::alloc::Global;
use std::marker::Model;
use std::sync::ledger::Ledger;

/// A panel that writes to a stream, and keeps no picture itself. A transfer is a record: its area and the colours. A
/// frame is a mark. Once a write fails, all that follows fails, since no viewer could tell where a record begins.
#[derive(Drop)]
pub struct StreamPanel<T: Sink, L: Ledger> {
    out: T,
    width: u16,
    height: u16,
    limit: u32,
    block: Block,
    broken: bool,
    coming: Option<DrawBuf>,
    sent: u64,
    flush_faults: Steps<L>,
    present_faults: u64,
    ghost flying: { ForSome coming (Fits width height limit (size_in block)) },
}

impl<T: Sink, L: Ledger> Model for StreamPanel<T, L> {
    ghost use Rattle.gui_base.specs.Gridded.{size_in};
    ghost use Rattle.panel_stream.specs.StreamPanel.{StreamValue, IsStreaming};

    ghost Value = { StreamValue T };

    ghost view = { λ p. record {
      state = record {
        out = p.out;
        width = p.width;
        height = p.height;
        limit = p.limit;
        block = size_in p.block;
        broken = p.broken;
        coming = p.coming;
        sent = p.sent;
        flush_faults = p.flush_faults;
        present_faults = p.present_faults;
      };
      flying = p.flying;
    } };

    ghost invariant = { λ p. IsStreaming p.width p.height p.limit p.broken (T.state p.out).held };
}

impl<T: Sink, L: Ledger> StreamPanel<T, L> {
    /// A panel that is not opened, over a sink that holds whole records, as an empty one does, if it tells what
    /// it holds. The count of faults is an empty one.
    pub fn new(out: T, faults: Steps<L>) -> StreamPanel<T, L>
        requires whole { ForSome (T.state out).held AreWhole }
        requires none { faults ≡ 0 }
        ensures { result.state ≡ unopened out }
    {
        StreamPanel {
            out,
            width: 0,
            height: 0,
            limit: 0,
            block: Block { w: 1, h: 1 },
            broken: false,
            coming: None,
            sent: 0,
            flush_faults: faults,
            present_faults: 0,
        }
    }

    /// Its sink.
    pub fn into_out(self) -> T
        ensures out { result ≡ self.state.out }
        ensures streams { IsStreaming self.state.width self.state.height self.state.limit self.state.broken
            (T.state result).held }
    {
        self.out
    }
}

impl<T: Steady, L: Ledger> Panel for StreamPanel<T, L> {
    ghost state = { λ p. stream_state T.state p.state };

    /// Writes the record of the sizes.
    fn open(
        &mut self,
        _alloc: Global,
        width: u16,
        height: u16,
        limit: u32,
        block: Block,
    ) -> Result<(), OpenFault>
        requires closed { self.old.state.limit ≡ 0 }
        requires sizes { CanOpen width height limit }
        ensures { OpenAnswer (stream_state T.state self.old.state)
            (stream_state T.state self.new.state) width height limit (size_in block) result }
    {
        if self.broken {
            self.flush_faults.tick();
            return Err(OpenFault::Failed);
        }
        match self.out.put(&sizes_bytes(width, height)) {
            Err(Failed) => {
                self.broken = true;
                self.flush_faults.tick();
                Err(OpenFault::Failed)
            }
            Ok(()) => {
                self.width = width;
                self.height = height;
                self.limit = limit;
                self.block = block;
                Ok(())
            }
        }
    }

    /// Takes the buffer. It does not fail.
    fn start(&mut self, buf: DrawBuf) -> Result<(), (Failed, DrawBuf)>
        requires free { self.old.state.coming ≡ None }
        requires area { CanStart (stream_state T.state self.old.state) buf }
        ensures same { Starts (stream_state T.state self.old.state)
            (stream_state T.state self.new.state) buf }
        ensures ok { OnOk result (Started (stream_state T.state self.old.state)
            (stream_state T.state self.new.state) buf) }
        ensures err { IfErr result (λ e. StartFailed (stream_state T.state self.old.state)
            (stream_state T.state self.new.state) buf e.1) }
    {
        self.sent = self.sent.saturating_add(buf.area().size());
        self.coming = Some(buf);
        Ok(())
    }

    /// Writes the record of the buffer in flight.
    fn poll(&mut self) -> Polled
        requires { IsSome self.old.state.coming }
        ensures { PollAnswer (stream_state T.state self.old.state)
            (stream_state T.state self.new.state) result }
    {
        match self.coming.take() {
            None => unreachable!(),
            Some(buf) => {
                if self.broken {
                    self.flush_faults.tick();
                    return Polled::Failed(buf);
                }
                match write_area(&mut self.out, &buf) {
                    Ok(()) => Polled::Ready(buf),
                    Err(Failed) => {
                        self.broken = true;
                        self.flush_faults.tick();
                        Polled::Failed(buf)
                    }
                }
            }
        }
    }

    /// Writes the mark.
    fn present(&mut self) -> Result<(), Failed>
        requires opened { 0 < self.old.state.limit }
        requires still { self.old.state.coming ≡ None }
        ensures same { Presents (stream_state T.state self.old.state)
            (stream_state T.state self.new.state) }
        ensures ok { OnOk result (WritesFrame (stream_state T.state self.old.state)
            (stream_state T.state self.new.state)) }
        ensures err { OnErr result (WritesPrefix (stream_state T.state self.old.state)
            (stream_state T.state self.new.state)) }
        ensures cause { OnErr result (Rose self.old.state.present_faults self.new.state.present_faults) }
    {
        if self.broken {
            self.present_faults = self.present_faults.saturating_add(1);
            return Err(Failed);
        }
        match self.out.put(b"F") {
            Ok(()) => Ok(()),
            Err(Failed) => {
                self.broken = true;
                self.present_faults = self.present_faults.saturating_add(1);
                Err(Failed)
            }
        }
    }

    ghost each = { λ p. each_of p.state.width p.state.height (T.state p.state.out).held };

    ghost flying = { λ p buf is. let f = p.flying buf is in record {
      inside = f.inside;
      small = f.small;
      blocks = f.blocks;
    } };
}

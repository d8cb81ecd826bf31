//! A panel in memory that never fails.
ghost use Rattle.std.specs.Prelude.{◌≡◌, ◌*◌, ◌<◌, length, None, OnOk, IsOk, IfErr};
ghost use Rattle.std.specs.Option.{ForSome};
ghost use Rattle.gui_base.specs.Gridded.{size_in};
ghost use Rattle.gui_edge.specs.Panel.{CanStart, Starts, Started, StartFailed};
ghost use Rattle.gui_edge.specs.SimPanel.{IsFlying};
ghost use Rattle.rfb_view.specs.ViewPanel.{view_state};

use crate::canvas::Canvas;
use gui_base::{Block, Rgb565};
use gui_color::DrawBuf;
use gui_edge::screen::panel_area;
use gui_edge::sim_panel::UNWRITTEN;
use gui_edge::{Failed, OpenFault, Panel, Polled};
use std::alloc::Global;
use std::marker::Model;

/// A panel in memory, which tells what it shows and never fails. It presents to nobody.
#[derive(Drop)]
pub struct ViewPanel {
    canvas: Canvas,
    width: u16,
    height: u16,
    limit: u32,
    block: Block,
    coming: Option<DrawBuf>,
    left: u64,
    sent: u64,
    ghost each: { length canvas ≡ width * height },
    ghost flying: { ForSome coming (IsFlying width height limit (size_in block)) },
}

impl Model for ViewPanel {
    ghost use Rattle.gui_base.specs.Gridded.{size_in};
    ghost use Rattle.rfb_view.specs.ViewPanel.{ViewState};

    ghost Value = { ViewState };

    ghost view = { λ p. record {
      width = p.width;
      height = p.height;
      limit = p.limit;
      block = size_in p.block;
      pixels = p.canvas;
      each = p.each;
      coming = p.coming;
      flying = p.flying;
      left = p.left;
      sent = p.sent;
    } };
}

impl ViewPanel {
    ghost use Rattle.std.specs.Prelude.{[]};

    /// A panel that is not opened. It takes no memory before it is.
    pub fn new() -> ViewPanel
        ensures closed { result.limit ≡ 0 }
        ensures sizes { (result.width ≡ 0) × (result.height ≡ 0) }
        ensures pixels { result.pixels ≡ [] }
        ensures still { (result.coming ≡ None) × (result.left ≡ 0) }
        ensures count { result.sent ≡ 0 }
    {
        ViewPanel {
            canvas: Canvas::none(),
            width: 0,
            height: 0,
            limit: 0,
            block: Block { w: 1, h: 1 },
            coming: None,
            left: 0,
            sent: 0,
        }
    }

    /// The colours of its pixels, row by row.
    pub fn pixels(&self) -> &[Rgb565]
        ensures { result.now ≡ self.now.pixels }
    {
        self.canvas.as_slice()
    }
}

impl Panel for ViewPanel {
    ghost state = { λ p. view_state p };

    /// Opens the panel. It fails only for want of memory.
    fn open(
        &mut self,
        alloc: Global,
        width: u16,
        height: u16,
        limit: u32,
        block: Block,
    ) -> Result<(), OpenFault> {
        let Ok(canvas) = Canvas::filled(alloc, UNWRITTEN, usize::from(width) * usize::from(height))
        else {
            return Err(OpenFault::NoMemory);
        };
        self.canvas = canvas;
        self.width = width;
        self.height = height;
        self.limit = limit;
        self.block = block;
        Ok(())
    }

    /// Takes the buffer. It never fails.
    fn start(&mut self, buf: DrawBuf) -> Result<(), (Failed, DrawBuf)>
        requires free { self.old.coming ≡ None }
        requires area { CanStart (view_state self.old) buf }
        ensures same { Starts (view_state self.old) (view_state self.new) buf }
        ensures ok { OnOk result (Started (view_state self.old) (view_state self.new) buf) }
        ensures err { IfErr result (λ e. StartFailed (view_state self.old) (view_state self.new) buf e.1) }

        ensures never_fails { IsOk result }
    {
        self.sent = self.sent.saturating_add(buf.area().size());
        self.left = buf.area().size();
        self.coming = Some(buf);
        Ok(())
    }

    /// The area shows the colours. It never fails, and never goes on.
    fn poll(&mut self) -> Polled {
        self.left = 0;
        match self.coming.take() {
            None => unreachable!(),
            Some(buf) => {
                let panel = panel_area(self.width, self.height);
                self.canvas.write(panel, buf.area(), buf.pixels());
                Polled::Ready(buf)
            }
        }
    }

    /// Presents to nobody. It never fails.
    fn present(&mut self) -> Result<(), Failed> {
        Ok(())
    }

    ghost each = { λ p. p.each };

    ghost flying = { λ p buf is. let f = p.flying buf is in record {
      inside = f.inside;
      small = f.small;
      blocks = f.blocks;
    } };
}

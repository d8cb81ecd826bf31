//! A panel for the crates of tests: it lists what it is sent, and hands each call on to another one.
#![tactic(auto)]

ghost use Rattle.std.specs.Prelude.{◌≡◌, ◌≤◌};

use arrayvec::ArrayVec;
use gui_base::Block;
use gui_color::DrawBuf;
use gui_edge::{Failed, OpenFault, Panel, Polled};
use std::alloc::Global;

/// A panel over another one. It lists the first buffers that it is asked to start and the first frames, and
/// knows the sizes that it was opened with.
#[derive(Drop)]
pub struct ListingPanel<P: Panel> {
    pub panel: P,
    /// The corners of the areas of the first buffers.
    pub starts: ArrayVec<[i32; 4], 16>,
    /// How many pixels were sent for each of the first frames, after the one before.
    pub counts: ArrayVec<u64, 8>,
    /// The sizes in pixels: 0 if it is not opened.
    pub width: u16,
    pub height: u16,
    // What was sent since the last frame.
    since: u64,
    ghost wide: { width ≤ (P.state panel).width },
    ghost high: { height ≤ (P.state panel).height },
}

impl<P: Panel> ListingPanel<P> {
    /// A panel that is not opened, over one that is not.
    pub fn new(panel: P) -> ListingPanel<P>
        ensures { result.panel ≡ panel }
    {
        ListingPanel {
            panel,
            starts: ArrayVec::new(),
            counts: ArrayVec::new(),
            width: 0,
            height: 0,
            since: 0,
        }
    }
}

impl<P: Panel> Panel for ListingPanel<P> {
    ghost state = { λ p. P.state p.panel };

    fn open(
        &mut self,
        alloc: Global,
        width: u16,
        height: u16,
        limit: u32,
        block: Block,
    ) -> Result<(), OpenFault> {
        self.width = 0;
        self.height = 0;
        self.panel.open(alloc, width, height, limit, block)?;
        self.width = width;
        self.height = height;
        Ok(())
    }

    fn start(&mut self, buf: DrawBuf) -> Result<(), (Failed, DrawBuf)> {
        let area = buf.area();
        let _ = self.starts.try_push([area.x1, area.y1, area.x2, area.y2]);
        self.since = self.since.saturating_add(area.size());
        self.panel.start(buf)
    }

    fn poll(&mut self) -> Polled {
        self.panel.poll()
    }

    fn present(&mut self) -> Result<(), Failed> {
        let _ = self.counts.try_push(self.since);
        self.since = 0;
        self.panel.present()
    }

    ghost each = { λ p. P.each p.panel };

    ghost flying = { λ p. P.flying p.panel };
}

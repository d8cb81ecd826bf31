//! A panel that looks whether its calls may be made.
ghost use Rattle.std.specs.Prelude.{◌≡◌};

use gui_base::{Area, Block};
use gui_color::DrawBuf;
use gui_edge::{Failed, OpenFault, Panel, Polled};
use std::alloc::Global;

/// Hands each call on to a panel, and counts what must not be. A buffer must not start while another is in
/// flight, nor with an area that is empty, too large or not in the panel. No poll and no frame may come at the
/// wrong time, and no other buffer may be handed back.
#[derive(Drop)]
pub(crate) struct Checking<P: Panel> {
    pub(crate) panel: P,
    pub(crate) broken: u32,
    whole: Area,
    limit: u64,
    flying: Option<Area>,
}

impl<P: Panel> Checking<P> {
    /// A panel with these pixels, for buffers of at most `limit` of them.
    pub(crate) fn new(panel: P, whole: Area, limit: u64) -> Checking<P>
        ensures { result.panel ≡ panel }
    {
        Checking {
            panel,
            broken: 0,
            whole,
            limit,
            flying: None,
        }
    }
}

/// A count, and one more if something is not so.
fn with_broken(count: u32, is_so: bool) -> u32 {
    if is_so {
        count
    } else {
        count.saturating_add(1)
    }
}

/// Whether these are the corners of the area.
fn is_area(area: Option<Area>, other: Area) -> bool {
    match area {
        Some(area) => {
            (area.x1, area.y1, area.x2, area.y2) == (other.x1, other.y1, other.x2, other.y2)
        }
        None => false,
    }
}

impl<P: Panel> Panel for Checking<P> {
    ghost state = { λ p. P.state p.panel };

    fn open(
        &mut self,
        alloc: Global,
        width: u16,
        height: u16,
        limit: u32,
        block: Block,
    ) -> Result<(), OpenFault> {
        self.panel.open(alloc, width, height, limit, block)
    }

    fn start(&mut self, buf: DrawBuf) -> Result<(), (Failed, DrawBuf)> {
        let area = buf.area();
        let fits = self.whole.holds_corners(area) && !area.is_empty() && area.size() <= self.limit;
        self.broken = with_broken(self.broken, self.flying.is_none() && fits);
        match self.panel.start(buf) {
            Ok(()) => {
                self.flying = Some(area);
                Ok(())
            }
            Err((Failed, back)) => {
                self.broken = with_broken(self.broken, is_area(Some(area), back.area()));
                Err((Failed, back))
            }
        }
    }

    fn poll(&mut self) -> Polled {
        let flying = self.flying;
        self.broken = with_broken(self.broken, flying.is_some());
        match self.panel.poll() {
            Polled::Ready(buf) => {
                self.flying = None;
                self.broken = with_broken(self.broken, is_area(flying, buf.area()));
                Polled::Ready(buf)
            }
            Polled::NotYet => Polled::NotYet,
            Polled::Failed(buf) => {
                self.flying = None;
                self.broken = with_broken(self.broken, is_area(flying, buf.area()));
                Polled::Failed(buf)
            }
        }
    }

    fn present(&mut self) -> Result<(), Failed> {
        self.broken = with_broken(self.broken, self.flying.is_none());
        self.panel.present()
    }

    ghost each = { λ p. P.each p.panel };

    ghost flying = { λ p. P.flying p.panel };
}

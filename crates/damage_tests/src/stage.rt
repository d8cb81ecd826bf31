//! A panel with what is pending of it, and what brings a picture to it.
ghost use Rattle.std.specs.Prelude.{◌≡◌, ◌*◌, ◌<◌, None};
ghost use Rattle.gui_base.specs.Gridded.{block_of};
ghost use Rattle.gui_base.specs.Grids.{one_pixel};
ghost use Rattle.gui_base.specs.Limits.{IsPanel};
ghost use Rattle.gui_damage.specs.Gridded.{listed_in};
ghost use Rattle.gui_edge.specs.Panel.{CanOpen};
ghost use Rattle.gui_refresh.specs.Stages.{CanRefresh, stage as sending};

use crate::list::whole_panel;
use crate::lit::Lit;
use gui_base::{Area, Block, Grid, Limits, Steps};
use gui_damage::Damage;
use gui_edge::Panel;
use gui_refresh::{Pumped, Refreshed, Refresher};
use std::alloc::Global;
use std::process::Abort;
use std::sync::ledger::{Blank, Ledger};

/// An opened panel whose blocks are single pixels, what is pending of it, and what brings a picture to it and
/// counts the steps.
pub(crate) struct Stage<P: Panel, L: Ledger> {
    pub(crate) refresher: Refresher,
    pub(crate) damage: Damage<Grid>,
    pub(crate) panel: P,
    steps: Steps<L>,
    ghost can: { CanRefresh (sending refresher (P.state panel) (listed_in damage)) },
    ghost blocks: { block_of damage.round ≡ refresher.sizes.block },
}

impl<P: Panel + Drop, L: Ledger> Drop for Stage<P, L> {
    /// Lets go of every field in one call, which keeps the proofs of its owners short.
    fn drop(self) {
        let Stage {
            refresher: _,
            damage: _,
            panel: _,
            steps: _,
        } = self;
    }
}

impl<P: Panel + Drop, L: Ledger> Stage<P, L> {
    /// Opens a panel, for slices of so many lines. All of it is pending.
    pub(crate) fn open(
        rt: &impl Abort,
        alloc: Global,
        blank: Blank,
        mut panel: P,
        width: u16,
        height: u16,
        lines: u16,
    ) -> Stage<P, L>
        requires name { blank.name ≡ L.name }
        requires parts { blank.parts ≡ L.parts }
        requires some { 0 < blank.parts }
        requires closed { (P.state panel).limit ≡ 0 }
        requires still { (P.state panel).coming ≡ None }
        requires limits { IsPanel width height lines }
        requires sizes { CanOpen width height (width * lines) }
        ensures { result.refresher.sizes
            ≡ record { width = width; height = height; limit = width * lines; block = one_pixel } }
    {
        let limits = Limits::with_sizes(width.into(), height.into(), lines.into());
        let limit = limits.width * limits.lines;
        panel
            .open(alloc, width, height, limit, Block { w: 1, h: 1 })
            .expect(rt, "not opened");
        let (book, all) = blank.open::<L>();
        Stage {
            refresher: Refresher::open(alloc, &limits).expect(rt, "no memory"),
            damage: whole_panel(Area::at(0, 0, limits.width, limits.height)),
            panel,
            steps: Steps::new(book, all),
        }
    }

    /// Adds an area to what is pending.
    pub(crate) fn add(&mut self, area: Area)
        ensures { self.new.refresher ≡ self.old.refresher }
    {
        self.damage.add(area);
    }

    /// Refreshes the panel.
    pub(crate) fn refresh(&mut self, picture: &Lit) -> Refreshed
        ensures sizes { self.new.refresher.sizes ≡ self.old.refresher.sizes }
        ensures free { 0 < self.new.refresher.free }
    {
        self.refresher.refresh(picture, &mut self.damage, &mut self.panel, &mut self.steps)
    }

    /// Goes one step on.
    pub(crate) fn pump(&mut self, picture: &Lit) -> Pumped
        ensures { self.new.refresher.sizes ≡ self.old.refresher.sizes }
    {
        self.refresher.pump(picture, &mut self.damage, &mut self.panel, &mut self.steps)
    }

    /// The sum of the numbers of a picture's colours, modulo 65536.
    pub(crate) fn sum_of(&mut self, picture: &Lit) -> u16
        requires { 0 < self.old.refresher.free }
    {
        self.refresher.sum_of(picture, &mut self.steps)
    }
}

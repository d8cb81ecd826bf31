//! The refresher.
ghost use Rattle.std.specs.Prelude.{◌≡◌, ◌≤◌, ◌%◌, ◌^◌, ◌+◌, ◌*◌, ◌<◌, true, false, ℤ, pos, sum_by, IfOk};
ghost use Rattle.std.specs.Prelude.{None, Some, is_some, IsSome};
ghost use Rattle.std.specs.Option.{ForSome};
ghost use Rattle.gui_base.specs.Area.{area_at, has, is_empty, size_of, width_of};
ghost use Rattle.gui_base.specs.Bounded.{bounds_of};
ghost use Rattle.gui_base.specs.Corners.{rect_of};
ghost use Rattle.gui_base.specs.Gridded.{block_of, size_in};
ghost use Rattle.gui_color.specs.Buffer.{color_at};
ghost use Rattle.gui_damage.specs.Gridded.{listed_in};
ghost use Rattle.gui_edge.specs.Panel.{CanStart};
ghost use Rattle.gui_refresh.specs.Stages.{CanRefresh, IsRefreshing, panel_with, sizes_of, stage};
ghost use Rattle.gui_refresh.specs.Steps.{DrawAnswer, StartAnswer, FlightAnswer};
ghost use Rattle.gui_refresh.specs.Refreshes.{RefreshesAt, PumpsAt, failures, failures_in};
ghost use Rattle.gui_refresh.specs.Slicing.{DrawsOne, DrawsSlices, slice_steps};
ghost use Rattle.gui_refresh.specs.Sums.{color_sum};

use crate::spares::Spares;
use crate::{Refreshed, listed};
use gui_base::{Area, Block, Grid, Limits, NoMemory, Rgb565, Steps};
use gui_color::DrawBuf;
use gui_damage::Damage;
use gui_draw::Picture;
use gui_edge::{Failed, Panel, Polled};
use owed_defs::Pumped;
use std::alloc::Global;
use std::marker::Model;
use std::sync::ledger::Ledger;

/// Two buffers that slices of a picture are painted into, for a panel of some sizes and blocks. One may be
/// drawn and wait while the other is in flight.
pub struct Refresher {
    width: u32,
    height: u32,
    limit: u32,
    block: Block,
    spares: Spares,
    drawn: Option<DrawBuf>,
    started: bool,
}

impl Drop for Refresher {
    /// Lets go of every field in one call, which keeps the proofs of its owners short.
    fn drop(self) {
        let Refresher {
            width: _,
            height: _,
            limit: _,
            block: _,
            spares: _,
            drawn: _,
            started: _,
        } = self;
    }
}

impl Model for Refresher {
    ghost use Rattle.std.specs.Prelude.{◌≡◌};
    ghost use Rattle.gui_base.specs.Gridded.{size_in};
    ghost use Rattle.gui_refresh.specs.Stages.{Refreshing, IsRefreshing};

    ghost Value = { Refreshing };

    ghost view = { λ r. record {
      sizes = record {
        width = r.width;
        height = r.height;
        limit = r.limit;
        block = size_in r.block;
      };
      drawn = r.drawn;
      free = r.spares.count;
      started = r.started;
    } };

    ghost invariant = { λ r.
        IsRefreshing (record {
          sizes = record {
            width = r.width;
            height = r.height;
            limit = r.limit;
            block = size_in r.block;
          };
          drawn = r.drawn;
          free = r.spares.count;
          started = r.started;
        })
        × (r.spares.limit ≡ r.limit) };
}

impl Refresher {
    /// A refresher for a panel of these limits, with two free buffers.
    pub fn open(alloc: Global, limits: &Limits) -> Result<Refresher, NoMemory>
        ensures { IfOk result (λ refresher. refresher ≡ record {
          sizes = sizes_of (bounds_of limits.now);
          drawn = None;
          free = 2;
          started = false;
        }) }
    {
        let limit = limits.width * limits.lines;
        let one = DrawBuf::open(alloc, limit)?;
        let other = DrawBuf::open(alloc, limit)?;
        Ok(Refresher {
            width: limits.width,
            height: limits.height,
            limit,
            block: limits.block,
            spares: Spares::new(one, other, limit),
            drawn: None,
            started: false,
        })
    }

    /// Joins the pending areas, and pumps until nothing is pending, drawn or in flight. It stops at the first
    /// start or transfer that fails. The slice of that one is pending again. `steps` counts the pixels that are
    /// made black as each slice begins, and what painting it takes. The blocks of `damage` are the refresher's.
    pub fn refresh<Q: Picture, P: Panel, L: Ledger>(
        &mut self,
        picture: &Q,
        damage: &mut Damage<Grid>,
        panel: &mut P,
        steps: &mut Steps<L>,
    ) -> Refreshed
        requires can { CanRefresh (stage self.old (P.state panel.old) (listed_in damage.old)) }
        requires blocks { block_of damage.old.round ≡ self.old.sizes.block }
        ensures round { damage.new.round ≡ damage.old.round }
        ensures refreshes { RefreshesAt (Q.color picture.now)
            (stage self.old (P.state panel.old) (listed_in damage.old))
            (stage self.new (P.state panel.new) (listed_in damage.new)) result }
        ensures draws { DrawsSlices self.old.sizes.limit (Q.per_pixel picture.now) (Q.per_slice picture.now)
            (stage self.old (P.state panel.old) (listed_in damage.old))
            (stage self.new (P.state panel.new) (listed_in damage.new))
            (failures result) steps.old steps.new }
    {
        // For the proof alone: these calls say that the refresher and the list are sound.
        let _started = self.is_started();
        let _areas = damage.areas();
        damage.join_all();
        loop {
            match self.pump(picture, damage, panel, steps) {
                Pumped::Idle => return Refreshed::Done,
                Pumped::Fault => return Refreshed::Fault,
                Pumped::Moved | Pumped::Waiting => {}
            }
        }
    }

    /// Goes one step on. If a transfer is in flight, it is polled; if that ends it, this is the step.
    /// Otherwise, if nothing is in flight, a drawn buffer that waits is started. Otherwise the next slice is
    /// drawn into a free buffer, if there is one and something is pending. The areas are joined before that if
    /// nothing is in flight. `steps` counts as in a refresh. The blocks of `damage` are the refresher's.
    pub fn pump<Q: Picture, P: Panel, L: Ledger>(
        &mut self,
        picture: &Q,
        damage: &mut Damage<Grid>,
        panel: &mut P,
        steps: &mut Steps<L>,
    ) -> Pumped
        requires can { CanRefresh (stage self.old (P.state panel.old) (listed_in damage.old)) }
        requires blocks { block_of damage.old.round ≡ self.old.sizes.block }
        ensures round { damage.new.round ≡ damage.old.round }
        ensures pumps { PumpsAt (Q.color picture.now)
            (stage self.old (P.state panel.old) (listed_in damage.old))
            (stage self.new (P.state panel.new) (listed_in damage.new)) result }
        ensures draws { DrawsOne (Q.per_pixel picture.now) (Q.per_slice picture.now)
            (stage self.old (P.state panel.old) (listed_in damage.old))
            (stage self.new (P.state panel.new) (listed_in damage.new))
            (failures_in result) steps.old steps.new }
    {
        if self.is_started() {
            return self.pump_started(picture, damage, panel, steps);
        }
        if self.is_drawn() {
            return self.start(damage, panel);
        }
        damage.join_all();
        if self.draw(picture, damage, steps) {
            Pumped::Moved
        } else {
            Pumped::Idle
        }
    }

    /// Goes one step on while a transfer is in flight.
    fn pump_started<Q: Picture, P: Panel, L: Ledger>(
        &mut self,
        picture: &Q,
        damage: &mut Damage<Grid>,
        panel: &mut P,
        steps: &mut Steps<L>,
    ) -> Pumped
        requires can { CanRefresh (stage self.old (P.state panel.old) (listed_in damage.old)) }
        requires sound { IsRefreshing self.old }
        requires started { self.old.started ≡ true }
        requires blocks { block_of damage.old.round ≡ self.old.sizes.block }
        ensures round { damage.new.round ≡ damage.old.round }
        ensures pumps { PumpsAt (Q.color picture.now)
            (stage self.old (P.state panel.old) (listed_in damage.old))
            (stage self.new (P.state panel.new) (listed_in damage.new)) result }
        ensures draws { DrawsOne (Q.per_pixel picture.now) (Q.per_slice picture.now)
            (stage self.old (P.state panel.old) (listed_in damage.old))
            (stage self.new (P.state panel.new) (listed_in damage.new))
            (failures_in result) steps.old steps.new }
    {
        match self.poll(damage, panel) {
            Some(answer) => answer,
            None => {
                if self.draw(picture, damage, steps) {
                    Pumped::Moved
                } else {
                    Pumped::Waiting
                }
            }
        }
    }

    /// Whether a buffer was started and has not come back.
    fn is_started(&self) -> bool
        ensures value { result ≡ self.now.started }
        ensures sound { IsRefreshing self.now }
    {
        self.started
    }

    /// Whether a drawn buffer waits.
    fn is_drawn(&self) -> bool
        ensures { result ≡ is_some self.now.drawn }
    {
        self.drawn.is_some()
    }

    /// Asks how the transfer in flight stands. `None`: it goes on.
    fn poll<P: Panel>(&mut self, damage: &mut Damage<Grid>, panel: &mut P) -> Option<Pumped>
        requires can { CanRefresh (stage self.old (P.state panel.old) (listed_in damage.old)) }
        requires flying { IsSome (P.state panel.old).coming }
        requires started { self.old.started ≡ true }
        requires blocks { block_of damage.old.round ≡ self.old.sizes.block }
        ensures round { damage.new.round ≡ damage.old.round }
        ensures step { FlightAnswer (stage self.old (P.state panel.old) (listed_in damage.old))
            (stage self.new (P.state panel.new) (listed_in damage.new)) result }
    {
        match panel.poll() {
            Polled::Ready(buf) => {
                self.take_back(buf);
                Some(Pumped::Moved)
            }
            Polled::NotYet => None,
            Polled::Failed(buf) => {
                listed::add(damage, buf.area());
                self.take_back(buf);
                Some(Pumped::Fault)
            }
        }
    }

    /// A buffer has come back from the panel.
    fn take_back(&mut self, buf: DrawBuf)
        requires started { self.old.started ≡ true }
        requires limit { buf.limit ≡ self.old.sizes.limit }
        ensures { self.new ≡ record self.old { free = self.old.free + 1; started = false } }
    {
        self.spares.put(buf);
        self.started = false;
    }

    /// Starts the drawn buffer.
    fn start<P: Panel>(&mut self, damage: &mut Damage<Grid>, panel: &mut P) -> Pumped
        requires can { CanRefresh (stage self.old (P.state panel.old) (listed_in damage.old)) }
        requires drawn { IsSome self.old.drawn }
        requires free { (P.state panel.old).coming ≡ None }
        requires started { self.old.started ≡ false }
        requires part { ForSome self.old.drawn (CanStart (P.state panel.old)) }
        requires blocks { block_of damage.old.round ≡ self.old.sizes.block }
        ensures round { damage.new.round ≡ damage.old.round }
        ensures step { StartAnswer (stage self.old (P.state panel.old) (listed_in damage.old))
            (stage self.new (P.state panel.new) (listed_in damage.new)) result }
    {
        match self.drawn.take() {
            None => unreachable!(),
            Some(buf) => {
                let area = buf.area();
                match panel.start(buf) {
                    Ok(()) => {
                        self.started = true;
                        Pumped::Moved
                    }
                    Err((Failed, back)) => {
                        listed::add(damage, area);
                        self.spares.put(back);
                        Pumped::Fault
                    }
                }
            }
        }
    }

    /// Draws the next slice into a free buffer, if there is one and something is pending. No drawn buffer
    /// waits then.
    fn draw<Q: Picture, L: Ledger>(
        &mut self,
        picture: &Q,
        damage: &mut Damage<Grid>,
        steps: &mut Steps<L>,
    ) -> bool
        requires blocks { block_of damage.old.round ≡ self.old.sizes.block }
        requires area { (listed_in damage.old).panel ≡ panel_with self.old.sizes }
        requires none { 0 < self.old.free → self.old.drawn ≡ None }
        ensures round { damage.new.round ≡ damage.old.round }
        ensures step { DrawAnswer (Q.color picture.now) self.old self.new
            (listed_in damage.old) (listed_in damage.new) result }
        ensures steps { steps.new ≤ steps.old
            + slice_steps (Q.per_pixel picture.now) (Q.per_slice picture.now) self.new.drawn result }
    {
        match self.spares.take() {
            None => false,
            Some(mut buf) => match damage.take_slice(self.limit) {
                None => {
                    self.spares.put(buf);
                    false
                }
                Some(slice) => {
                    paint(&mut buf, picture, slice, steps);
                    self.drawn = Some(buf);
                    true
                }
            },
        }
    }

    /// The sum of the numbers of the colours of all pixels of a picture, modulo 65536. The picture is painted
    /// in slices into a free buffer, and `steps` counts that as in a refresh. Nothing else changes.
    pub fn sum_of<Q: Picture, L: Ledger>(&mut self, picture: &Q, steps: &mut Steps<L>) -> u16
        requires free { 0 < self.old.free }
        ensures same { self.new ≡ self.old }
        ensures sum { result ≡ color_sum (Q.color picture.now) self.old.sizes.width self.old.sizes.height
            % 2 ^ 16 }
    {
        match self.spares.take() {
            None => unreachable!(),
            Some(mut buf) => {
                let sum = sum_in(
                    &mut buf,
                    picture,
                    self.width,
                    self.height,
                    self.limit,
                    steps,
                );
                self.spares.put(buf);
                sum
            }
        }
    }
}

/// The sum of the numbers of the colours of a picture of these sizes, modulo 65536, painted in slices of at
/// most `limit` pixels.
fn sum_in<Q: Picture, L: Ledger>(
    buffer: &mut DrawBuf,
    picture: &Q,
    width: u32,
    height: u32,
    limit: u32,
    steps: &mut Steps<L>,
) -> u16
    requires some { 1 ≤ width }
    requires wide { width ≤ 1024 }
    requires high { height ≤ 1024 }
    requires line { width ≤ limit }
    requires room { limit ≤ buffer.old.limit }
    ensures limit { buffer.new.limit ≡ buffer.old.limit }
    ensures sum { result ≡ color_sum (Q.color picture.now) width height % 2 ^ 16 }
{
    let lines = limit / width;
    let mut sum = 0_u16;
    let mut y = 0;
    while y < height {
        let count = lines.min(height - y);
        let slice = lines_area(width, y, count);
        paint(buffer, picture, slice, steps);
        sum = sum.wrapping_add(sum_of_colors(buffer.pixels()));
        y += count;
    }
    sum
}

/// Lines of a panel: all of its width, and `count` pixels downward from y = `from` on.
fn lines_area(width: u32, from: u32, count: u32) -> Area
    requires wide { width ≤ 1024 }
    requires high { from + count ≤ 1024 }
    ensures { rect_of result ≡ area_at (pos 0) (pos from) width count }
{
    Area::at(0, from as i32, width, count)
}

/// Paints a slice of a picture.
fn paint<Q: Picture, L: Ledger>(
    buffer: &mut DrawBuf,
    picture: &Q,
    slice: Area,
    steps: &mut Steps<L>,
)
    requires some { is_empty (rect_of slice) ≡ false }
    requires fits { size_of (rect_of slice) ≤ buffer.old.limit }
    ensures area { buffer.new.area ≡ rect_of slice }
    ensures limit { buffer.new.limit ≡ buffer.old.limit }
    ensures colors { (x y : ℤ) → has (rect_of slice) x y ≡ true →
        color_at (rect_of slice) buffer.new.pixels x y ≡ Q.color picture.now x y }
    ensures steps { steps.new ≤ steps.old
        + (size_of (rect_of slice) * (1 + Q.per_pixel picture.now) + Q.per_slice picture.now) }
{
    buffer.begin(slice, steps);
    picture.slice(buffer, steps);
}

/// The sum of the numbers of colours, modulo 65536.
fn sum_of_colors(colors: &[Rgb565]) -> u16
    ensures { result ≡ sum_by (λ color. color.0) colors.now % 2 ^ 16 }
{
    let mut sum = 0_u16;
    for color in colors {
        sum = sum.wrapping_add(color.0);
    }
    sum
}

//! The list of the pending areas.
ghost use Rattle.std.specs.Prelude.{◌≡◌, ◌*◌, ◌≤◌, true, ◌∷◌, [], map};
ghost use Rattle.std.specs.List.{list_all};
ghost use Rattle.std.specs.Option.{option_map};
ghost use Rattle.gui_base.specs.Area.{width_of, is_within};
ghost use Rattle.gui_base.specs.Corners.{rect_of};
ghost use Rattle.gui_damage.specs.Adding.{AddsAll};
ghost use Rattle.gui_damage.specs.Damage.{rects_of};
ghost use Rattle.gui_damage.specs.Joining.{JoinsAll};
ghost use Rattle.gui_damage.specs.Rounded.{IsRounded, pending_in, added_to, added_all_to};
ghost use Rattle.gui_damage.specs.Rounded.{round_slice_of, left_round};

use crate::area_list::AreaList;
use crate::pairs::pair_to_join;
use gui_base::{Area, Round};
use std::marker::Model;

/// A panel, and a list of at most 32 areas of it whose pixels are to be sent. None of them is empty, and each
/// is its own rounding.
#[derive(Drop)]
pub struct Damage<R: Round> {
    round: R,
    list: AreaList,
}

impl<R: Round> Model for Damage<R> {
    ghost use Rattle.std.specs.Prelude.{◌≡◌};
    ghost use Rattle.gui_damage.specs.Rounded.{Rounded, IsRounded};

    ghost Value = { Rounded R };

    ghost view = { λ d. record { round = d.round; areas = d.list.areas } };

    ghost invariant = { λ d.
        (d.list.panel ≡ (R.rules d.round).panel) × IsRounded (R.rules d.round) d.list.areas };
}

impl<R: Round> Damage<R> {
    /// The list with the whole panel alone. The rounding is one of this panel.
    pub fn new(panel: Area, round: R) -> Damage<R>
        requires { rect_of panel ≡ (R.rules round).panel }
        ensures { result ≡ record { round = round; areas = rect_of panel ∷ [] } }
    {
        Damage {
            round,
            list: AreaList::new(panel),
        }
    }

    /// Lists the rounding of the area's part of the panel, as the last of the list. Nothing happens if that
    /// part is empty, or if the rounding lies in a listed area. If 32 areas are listed, the list becomes the
    /// whole panel alone.
    pub fn add(&mut self, area: Area)
        ensures list { self.new ≡ added_to R.rules self.old (rect_of area) }
        ensures sound { IsRounded (R.rules self.old.round) self.old.areas }
    {
        let part = area.meet(self.list.panel());
        if !part.is_empty() {
            self.list.add(self.round.round(part));
        }
    }

    /// Adds areas that lie in the panel and are not empty. The list grows by no more than their roundings.
    /// Otherwise they come to more than 32 areas with those that were listed, and it becomes the whole panel
    /// alone.
    pub fn add_all(&mut self, areas: &[Area])
        requires { list_all (is_within (R.rules self.old.round).panel) (rects_of areas.now) ≡ true }
        ensures list { self.new ≡ added_all_to R.rules self.old (rects_of areas.now) }
        ensures adds { AddsAll (pending_in R.rules self.old) (pending_in R.rules self.new)
            (map (R.rules self.old.round).round (rects_of areas.now)) }
    {
        let _ = &self.round;
        for area in areas {
            self.add(*area);
        }
    }

    /// Joins two listed areas if they have a pixel in common, and the rounding of their join has fewer pixels
    /// than both together. That rounding takes their place. This goes on until there is no such pair. What was
    /// covered stays covered, and the sum of the sizes does not grow.
    pub fn join_all(&mut self)
        ensures round { self.new.round ≡ self.old.round }
        ensures joins { JoinsAll (R.rules self.old.round).round
            (pending_in R.rules self.old) (pending_in R.rules self.new) }
        ensures sound { IsRounded (R.rules self.old.round) self.old.areas }
    {
        while let Some((i, j)) = pair_to_join(&self.round, self.list.areas()) {
            let areas = self.list.areas();
            let join = self.round.round(areas[i].join(areas[j]));
            self.list.replace(i, j, join);
        }
    }

    /// Takes the topmost lines of the first area: all of them, or the most whole steps of the rounding that
    /// have at most `limit` pixels. The limit is at least the panel's width times the step. The rest of the
    /// area stays first. None if nothing is listed.
    pub fn take_slice(&mut self, limit: u32) -> Option<Area>
        requires { width_of (R.rules self.old.round).panel * (R.rules self.old.round).step ≤ limit }
        ensures slice { option_map rect_of result
            ≡ round_slice_of (R.rules self.old.round) limit self.old.areas }
        ensures rest { self.new ≡ record self.old {
          areas = left_round (R.rules self.old.round) limit self.old.areas;
        } }
        ensures sound { IsRounded (R.rules self.old.round) self.old.areas }
    {
        let Some(first) = self.list.first() else {
            return None;
        };
        let width = first.width();
        let step = self.round.step();
        self.list.take_slice(limit / width / step * step * width)
    }

    /// The listed areas.
    pub fn areas(&self) -> &[Area]
        ensures areas { rects_of result.now ≡ self.now.areas }
        ensures sound { IsRounded (R.rules self.now.round) self.now.areas }
    {
        self.list.areas()
    }
}

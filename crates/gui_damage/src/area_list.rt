//! A list of areas of a panel, as they are given.
ghost use Rattle.std.specs.Prelude.{◌≡◌, ◌<◌, ◌≤◌, length, true, false, [], ◌∷◌, pos, ◌+ℤ◌};
ghost use Rattle.std.specs.List.{list_any};
ghost use Rattle.std.specs.Option.{option_map};
ghost use Rattle.gui_base.specs.Area.{IsCoordinate, is_empty, width_of, height_of, has_corners, is_within};
ghost use Rattle.gui_base.specs.Corners.{rect_of};
ghost use Rattle.gui_damage.specs.Pending.{IsPending};
ghost use Rattle.gui_damage.specs.Adding.{added};
ghost use Rattle.gui_damage.specs.Joining.{joined_at};
ghost use Rattle.gui_base.specs.Lines.{top_lines, lines_below};
ghost use Rattle.gui_damage.specs.Slices.{slice_of, left_after, first_of, HasLine};
ghost use Rattle.gui_damage.specs.Damage.{rects_of};

use arrayvec::ArrayVec;
use gui_base::Area;
use std::marker::Model;

/// A panel, and a list of at most 32 areas of it whose pixels are to be sent. None of them is empty.
#[derive(Drop)]
pub(crate) struct AreaList {
    panel: Area,
    listed: ArrayVec<Area, 32>,
}

impl Model for AreaList {
    ghost use Rattle.gui_damage.specs.Pending.{Pending, IsPending};
    ghost use Rattle.gui_damage.specs.Damage.{pending_of};

    ghost Value = { Pending };

    ghost view = { λ d. pending_of d.panel d.listed.items };

    ghost invariant = { λ d. IsPending (pending_of d.panel d.listed.items) };
}

impl AreaList {
    /// The list with the whole panel, which is not empty.
    pub(crate) fn new(panel: Area) -> AreaList
        requires { is_empty (rect_of panel) ≡ false }
        ensures { result ≡ record { panel = rect_of panel; areas = rect_of panel ∷ [] } }
    {
        let mut listed = ArrayVec::new();
        listed.push(panel);
        AreaList { panel, listed }
    }

    /// Lists the area's part of the panel, as the last of the list. Nothing happens if that is empty or lies in
    /// a listed area. If 32 areas are listed, the list becomes the whole panel alone.
    pub(crate) fn add(&mut self, area: Area)
        ensures list { self.new ≡ added self.old (rect_of area) }
        ensures panel { self.new.panel ≡ self.old.panel }
        ensures sound { IsPending self.old }
    {
        let part = area.meet(self.panel);
        if part.is_empty() {
            return;
        }
        if is_listed(&self.listed, part) {
            return;
        }
        if self.listed.is_full() {
            self.listed.clear();
            self.listed.push(self.panel);
            return;
        }
        self.listed.push(part);
    }

    /// All pixels of the panel.
    pub(crate) fn panel(&self) -> Area
        ensures { rect_of result ≡ self.now.panel }
    {
        self.panel
    }

    /// Puts an area in the place of two listed ones. It lies in the panel and is not empty.
    pub(crate) fn replace(&mut self, i: usize, j: usize, area: Area)
        requires later { i < j }
        requires within { j < length self.old.areas }
        requires area { is_within self.old.panel (rect_of area) ≡ true }
        ensures { self.new ≡ record self.old { areas = joined_at self.old.areas i j (rect_of area) } }
    {
        self.listed[i] = area;
        self.listed.remove(j);
    }

    /// Takes the topmost lines of the first area, as many as have at most `limit` pixels. The limit is at least
    /// the area's width. The rest of the area stays first. None if nothing is listed.
    pub(crate) fn take_slice(&mut self, limit: u32) -> Option<Area>
        requires { HasLine limit self.old.areas }
        ensures slice { option_map rect_of result ≡ slice_of limit self.old.areas }
        ensures rest { self.new ≡ record self.old { areas = left_after limit self.old.areas } }
        ensures sound { IsPending self.old }
    {
        if self.listed.is_empty() {
            return None;
        }
        let first = self.listed[0];
        let lines = first.height().min(limit / first.width());
        let slice = top_lines(first, lines);
        if lines == first.height() {
            self.listed.remove(0);
            return Some(slice);
        }
        self.listed[0] = lines_below(first, lines);
        Some(slice)
    }

    /// The first of the listed areas. None if nothing is listed.
    pub(crate) fn first(&self) -> Option<Area>
        ensures { option_map rect_of result ≡ first_of self.now.areas }
    {
        self.listed.first().copied()
    }

    /// The listed areas.
    pub(crate) fn areas(&self) -> &[Area]
        ensures areas { rects_of result.now ≡ self.now.areas }
        ensures sound { IsPending self.now }
    {
        &self.listed
    }
}

/// Whether a listed area has all pixels of an area that is not empty.
fn is_listed(listed: &[Area], part: Area) -> bool
    ensures { result ≡ list_any (λ area. has_corners (rect_of area) (rect_of part)) listed.now }
{
    listed.iter().any(|area| area.holds_corners(part))
}

/// The first lines of an area.
fn top_lines(area: Area, lines: u32) -> Area
    requires some { is_empty (rect_of area) ≡ false }
    requires line { 0 < lines }
    requires within { lines ≤ height_of (rect_of area) }
    ensures { rect_of result ≡ top_lines (rect_of area) lines }
{
    Area {
        x1: area.x1,
        y1: area.y1,
        x2: area.x2,
        y2: line_at(area.y1, lines - 1),
    }
}

/// The lines of an area below its first ones.
fn lines_below(area: Area, lines: u32) -> Area
    requires some { is_empty (rect_of area) ≡ false }
    requires within { lines < height_of (rect_of area) }
    ensures { rect_of result ≡ lines_below (rect_of area) lines }
{
    Area {
        x1: area.x1,
        y1: line_at(area.y1, lines),
        x2: area.x2,
        y2: area.y2,
    }
}

/// The line that stands so many lines below another.
fn line_at(y: i32, lines: u32) -> i32
    requires { IsCoordinate (y +ℤ pos lines) }
    ensures value { result ≡ y +ℤ pos lines }
    ensures fits { IsCoordinate result }
{
    (i64::from(y) + i64::from(lines)) as i32
}

//! Lists of areas that were worked out by hand, on panels whose blocks are single pixels.
ghost use Rattle.std.specs.Prelude.{◌≡◌, ◌∷◌, [], false, pos};
ghost use Rattle.gui_base.specs.Area.{is_empty};
ghost use Rattle.gui_base.specs.Corners.{rect_of};
ghost use Rattle.gui_base.specs.Gridded.{block_of};
ghost use Rattle.gui_base.specs.Grids.{one_pixel};

use gui_base::{Area, Grid, Round};
use gui_damage::Damage;
use std::process::Abort;

/// The list with the whole of a panel, whose blocks are single pixels.
pub(crate) fn whole_panel(panel: Area) -> Damage<Grid>
    requires left { (rect_of panel).x1 ≡ pos 0 }
    requires top { (rect_of panel).y1 ≡ pos 0 }
    requires some { is_empty (rect_of panel) ≡ false }
    ensures blocks { block_of result.round ≡ one_pixel }
    ensures panel { rect_of result.round.panel ≡ rect_of panel }
    ensures areas { result.areas ≡ rect_of panel ∷ [] }
{
    Damage::new(panel, Grid::of_pixels(panel))
}

/// The corners of an area.
pub(crate) fn corners(area: &Area) -> [i32; 4] {
    [area.x1, area.y1, area.x2, area.y2]
}

/// Whether a list has these areas, in this order.
pub(crate) fn check_listed<R: Round>(rt: &impl Abort, damage: &Damage<R>, want: &[[i32; 4]]) {
    assert_eq!(rt; damage.areas().len(), want.len());
    for (area, corners_wanted) in damage.areas().iter().zip(want) {
        assert_eq!(rt; corners(area), *corners_wanted);
    }
}

#[test]
fn areas_are_cut_at_the_panels_edge(rt: HostRuntime) {
    let mut damage = whole_panel(Area::at(0, 0, 8, 4));
    check_listed(&rt, &damage, &[[0, 0, 7, 3]]);
    assert!(rt; damage.take_slice(32).is_some());
    check_listed(&rt, &damage, &[]);
    // It lies right of the panel, then over a corner of it, inside that part, and next to it.
    damage.add(Area::at(8, 0, 3, 3));
    damage.add(Area::at(6, -2, 5, 4));
    damage.add(Area::at(7, 1, 9, 1));
    damage.add(Area::at(5, 0, 1, 2));
    check_listed(&rt, &damage, &[[6, 0, 7, 1], [5, 0, 5, 1]]);
}

#[test]
fn thirty_three_areas_become_the_panel(rt: HostRuntime) {
    let mut damage = whole_panel(Area::at(0, 0, 66, 1));
    assert!(rt; damage.take_slice(66).is_some());
    for n in 0..32_u16 {
        damage.add(Area::at(2 * i32::from(n), 0, 1, 1));
    }
    damage.add(Area::at(62, 0, 1, 1));
    damage.join_all();
    assert_eq!(rt; damage.areas().len(), 32);
    damage.add(Area::at(64, 0, 1, 1));
    check_listed(&rt, &damage, &[[0, 0, 65, 0]]);
    damage.add(Area::at(1, 0, 1, 1));
    check_listed(&rt, &damage, &[[0, 0, 65, 0]]);
}

/// Whether areas of a panel of ten by ten pixels become these when they are joined.
fn check_joined(rt: &impl Abort, areas: &[Area], want: &[[i32; 4]]) {
    let mut damage = whole_panel(Area::at(0, 0, 10, 10));
    assert!(rt; damage.take_slice(100).is_some());
    for area in areas {
        damage.add(*area);
    }
    damage.join_all();
    check_listed(rt, &damage, want);
}

#[test]
fn areas_are_joined_where_that_saves_pixels(rt: HostRuntime) {
    // They touch at a corner, or have one pixel in common and too many between them.
    let apart = [
        Area::at(0, 0, 3, 3),
        Area::at(2, 2, 3, 3),
        Area::at(5, 5, 2, 2),
    ];
    check_joined(&rt, &apart, &[[0, 0, 2, 2], [2, 2, 4, 4], [5, 5, 6, 6]]);
    let row = [
        Area::at(0, 0, 4, 1),
        Area::at(6, 0, 4, 1),
        Area::at(3, 0, 4, 1),
    ];
    check_joined(&rt, &row, &[[0, 0, 9, 0]]);
    // The third is joined with the join of the first two, and with none of them alone.
    let chain = [
        Area::at(3, 0, 4, 3),
        Area::at(0, 0, 4, 2),
        Area::at(0, 1, 4, 2),
    ];
    check_joined(&rt, &chain, &[[0, 0, 6, 2]]);
}

/// Whether this slice was taken.
pub(crate) fn check_slice(rt: &impl Abort, slice: Option<Area>, want: [i32; 4]) {
    assert_eq!(rt; slice.as_ref().map(corners), Some(want));
}

#[test]
fn slices_have_whole_lines(rt: HostRuntime) {
    let mut damage = whole_panel(Area::at(0, 0, 5, 7));
    check_slice(&rt, damage.take_slice(14), [0, 0, 4, 1]);
    check_listed(&rt, &damage, &[[0, 2, 4, 6]]);
    check_slice(&rt, damage.take_slice(19), [0, 2, 4, 4]);
    check_slice(&rt, damage.take_slice(20), [0, 5, 4, 6]);
    assert!(rt; damage.take_slice(5).is_none());
}

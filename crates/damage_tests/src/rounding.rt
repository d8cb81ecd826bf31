//! Lists of areas that are widened to whole blocks and to whole lines, worked out by hand.
ghost use Rattle.std.specs.Prelude.{◌≡◌, ◌*◌, ◌≤◌, pos};
ghost use Rattle.gui_base.specs.Area.{area_at, width_of};
ghost use Rattle.gui_base.specs.Corners.{rect_of};
ghost use Rattle.gui_base.specs.Grids.{blocks_of};
ghost use Rattle.gui_base.specs.Gridded.{rules_of};

use crate::list::{check_listed, check_slice};
use gui_base::{Area, Block, FullLines, Grid, Round};
use gui_damage::Damage;
use std::process::Abort;

/// Areas, what is listed of them, what of that when they are joined, and the slices of at most `limit` pixels.
#[derive(Clone, Copy)]
struct Table<'a> {
    areas: &'a [Area],
    listed: &'a [[i32; 4]],
    joined: &'a [[i32; 4]],
    limit: u32,
    slices: &'a [[i32; 4]],
}

/// Whether an empty list comes to what a table says. A slice of `whole` pixels is all of the panel.
fn check_table<R: Round>(rt: &impl Abort, damage: &mut Damage<R>, whole: u32, table: &Table)
    requires whole { width_of (R.rules damage.old.round).panel * (R.rules damage.old.round).step ≤ whole }
    requires limit { width_of (R.rules damage.old.round).panel * (R.rules damage.old.round).step
        ≤ table.now.limit }
{
    assert!(rt; damage.take_slice(whole).is_some());
    check_listed(rt, damage, &[]);
    for area in table.areas {
        damage.add(*area);
    }
    check_listed(rt, damage, table.listed);
    damage.join_all();
    check_listed(rt, damage, table.joined);
    for slice in table.slices {
        check_slice(rt, damage.take_slice(table.limit), *slice);
    }
    assert!(rt; damage.take_slice(table.limit).is_none());
}

/// The blocks of four by two pixels of a panel of sixteen by eight.
fn four_by_two() -> Grid
    ensures { rules_of result ≡ blocks_of 4 2 (area_at (pos 0) (pos 0) 16 8) }
{
    Grid::new(Block { w: 4, h: 2 }, Area::at(0, 0, 16, 8))
}

#[test]
fn areas_become_whole_blocks(rt: HostRuntime) {
    let grid = four_by_two();
    // The second holds the first, and only with the last it saves nothing to be joined.
    let table = Table {
        areas: &[
            Area::at(5, 1, 1, 1),
            Area::at(7, 1, 2, 2),
            Area::at(13, 7, 9, 9),
            Area::at(12, 6, 1, 1),
            Area::at(16, 0, 1, 1),
            Area::at(0, 3, 13, 3),
        ],
        listed: &[[4, 0, 7, 1], [4, 0, 11, 3], [12, 6, 15, 7], [0, 2, 15, 5]],
        joined: &[[4, 0, 11, 3], [12, 6, 15, 7], [0, 2, 15, 5]],
        limit: 55,
        slices: &[[4, 0, 11, 3], [12, 6, 15, 7], [0, 2, 15, 3], [0, 4, 15, 5]],
    };
    let mut damage = Damage::new(grid.panel, grid);
    check_table(&rt, &mut damage, 128, &table);
}

/// The bytes of a panel of eight by twenty-four pixels, each of which is eight pixels high.
fn bytes() -> Grid
    ensures { rules_of result ≡ blocks_of 1 8 (area_at (pos 0) (pos 0) 8 24) }
{
    Grid::new(Block { w: 1, h: 8 }, Area::at(0, 0, 8, 24))
}

#[test]
fn areas_become_whole_bytes(rt: HostRuntime) {
    let grid = bytes();
    let table = Table {
        areas: &[
            Area::at(2, 3, 3, 2),
            Area::at(2, 0, 5, 1),
            Area::at(2, 15, 2, 1),
            Area::at(7, -4, 9, 3),
            Area::at(0, 9, 8, 12),
        ],
        listed: &[[2, 0, 4, 7], [2, 0, 6, 7], [2, 8, 3, 15], [0, 8, 7, 23]],
        joined: &[[2, 0, 6, 7], [0, 8, 7, 23]],
        limit: 100,
        slices: &[[2, 0, 6, 7], [0, 8, 7, 15], [0, 16, 7, 23]],
    };
    let mut damage = Damage::new(grid.panel, grid);
    check_table(&rt, &mut damage, 192, &table);
}

/// The lines of a panel of ten by six pixels.
fn ten_by_six() -> FullLines
    ensures { rect_of result.panel ≡ area_at (pos 0) (pos 0) 10 6 }
{
    FullLines::new(Area::at(0, 0, 10, 6))
}

#[test]
fn areas_become_whole_lines(rt: HostRuntime) {
    let lines = ten_by_six();
    let table = Table {
        areas: &[
            Area::at(3, 1, 2, 2),
            Area::at(-2, 2, 3, 3),
            Area::at(9, 5, 4, 1),
            Area::at(4, 3, 1, 1),
        ],
        listed: &[[0, 1, 9, 2], [0, 2, 9, 4], [0, 5, 9, 5]],
        joined: &[[0, 1, 9, 4], [0, 5, 9, 5]],
        limit: 25,
        slices: &[[0, 1, 9, 2], [0, 3, 9, 4], [0, 5, 9, 5]],
    };
    let mut damage = Damage::new(lines.panel, lines);
    check_table(&rt, &mut damage, 60, &table);
}

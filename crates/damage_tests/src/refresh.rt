//! Refreshes over a panel that lists what it is asked to start.
ghost use Rattle.std.specs.Prelude.{◌≡◌, ◌<◌, None};

use crate::lit::Lit;
use crate::stage::Stage;
use gui_base::{Area, Grid, Rgb565};
use gui_damage::Damage;
use gui_edge::{MemSink, Panel, SimPanel, SimPlan};
use gui_refresh::Refreshed;
use std::alloc::Global;
use std::marker::Brand;
use std::process::Abort;
use std::sync::ledger::{Blank, Ledger};
use test_panels::ListingPanel;

/// A panel that is not opened, of which the start of a number fails.
fn closed_panel(rt: &impl Abort, alloc: Global, fails: u64) -> ListingPanel<SimPanel<MemSink>>
    ensures { (result.panel.limit ≡ 0) × (result.panel.coming ≡ None) }
{
    let plan = SimPlan {
        fail_open: false,
        fail_flush: vec![in alloc; fails].expect(rt, "no memory"),
        fail_poll: Vec::new(alloc),
        moves: Vec::new(alloc),
    };
    let frames = MemSink::with_capacity(alloc, 0, Vec::new(alloc)).expect(rt, "no memory");
    ListingPanel::new(SimPanel::new(frames, plan))
}

/// Whether these are the areas that a panel was asked to start, in order.
fn check_starts<P: Panel>(rt: &impl Abort, panel: &ListingPanel<P>, want: &[[i32; 4]]) {
    assert_eq!(rt; panel.starts.as_slice(), want);
}

/// Compares how a refresh ended.
fn check_refreshed(rt: &impl Abort, got: Refreshed, want: Refreshed) {
    assert_eq!(rt; got, want);
}

/// Compares a count of areas, slices or pixels, or a sum of colours.
fn check_count(rt: &impl Abort, got: u64, want: u64) {
    assert_eq!(rt; got, want);
}

/// Whether a panel of four by three pixels is white.
fn check_white(rt: &impl Abort, panel: &SimPanel<MemSink>)
    requires { (panel.now.width ≡ 4) × (panel.now.height ≡ 3) }
{
    for y in 0..3 {
        for x in 0..4 {
            assert_eq!(rt; panel.shown(x, y), Rgb565::WHITE);
        }
    }
}

/// Refreshes a panel of four by three pixels in slices of a line, if the start of a number fails, and then once
/// more.
fn refresh_twice<L: Ledger>(
    rt: &impl Abort,
    alloc: Global,
    blank: Blank,
    fails: u64,
    want: &[[i32; 4]],
)
    requires name { blank.name ≡ L.name }
    requires parts { blank.parts ≡ L.parts }
    requires some { 0 < blank.parts }
{
    let white = Lit {
        part: Area::at(0, 0, 4, 3),
    };
    let panel = closed_panel(rt, alloc, fails);
    let mut stage = Stage::<_, L>::open(rt, alloc, blank, panel, 4, 3, 1);
    check_refreshed(rt, stage.refresh(&white), Refreshed::Fault);
    check_count(rt, stage.panel.starts.len() as u64, fails);
    check_refreshed(rt, stage.refresh(&white), Refreshed::Done);
    check_starts(rt, &stage.panel, want);
    check_count(rt, stage.panel.panel.sent(), 16);
    check_white(rt, &stage.panel.panel);
}

#[test]
fn a_fault_stops_at_its_slice(rt: HostRuntime) {
    let (alloc, [a, b, c]) = (rt.alloc(), [[0, 0, 3, 0], [0, 1, 3, 1], [0, 2, 3, 2]]);
    refresh_twice::<Brand>(&rt, alloc, Blank::new(1), 1, &[a, b, c, a]);
    refresh_twice::<Brand>(&rt, alloc, Blank::new(1), 2, &[a, b, c, b]);
    refresh_twice::<Brand>(&rt, alloc, Blank::new(1), 3, &[a, b, c, c]);
}

/// Refreshes a panel of six by four pixels, and again after changes. Two areas are joined, and one is cut at
/// the panel's edge.
fn refresh_changes<L: Ledger>(rt: &impl Abort, alloc: Global, blank: Blank)
    requires name { blank.name ≡ L.name }
    requires parts { blank.parts ≡ L.parts }
    requires some { 0 < blank.parts }
{
    let white = Lit {
        part: Area::at(0, 0, 6, 4),
    };
    let panel = closed_panel(rt, alloc, 0);
    let mut stage = Stage::<_, L>::open(rt, alloc, blank, panel, 6, 4, 2);
    check_refreshed(rt, stage.refresh(&white), Refreshed::Done);
    check_refreshed(rt, stage.refresh(&white), Refreshed::Done);
    check_starts(rt, &stage.panel, &[[0, 0, 5, 1], [0, 2, 5, 3]]);
    stage.add(Area::at(1, 0, 2, 1));
    stage.add(Area::at(4, 3, 5, 5));
    stage.add(Area::at(2, 0, 3, 1));
    check_refreshed(rt, stage.refresh(&white), Refreshed::Done);
    check_starts(
        rt,
        &stage.panel,
        &[[0, 0, 5, 1], [0, 2, 5, 3], [1, 0, 4, 0], [4, 3, 5, 3]],
    );
    check_count(rt, stage.panel.panel.sent(), 30);
    check_count(rt, stage.sum_of(&white).into(), 65_512);
}

#[test]
fn only_what_is_pending_is_sent(rt: HostRuntime) {
    refresh_changes::<Brand>(&rt, rt.alloc(), Blank::new(1));
}

/// Adds 31 areas of a pixel that stay apart.
fn add_dots(damage: &mut Damage<Grid>)
    ensures { damage.new.round ≡ damage.old.round }
{
    for n in 0..31_u16 {
        damage.add(Area::at(2 * i32::from(n), 2, 1, 1));
    }
}

/// Lists 32 areas of a panel of 66 by 3 pixels, the first of which has more lines than a slice. The first
/// start fails, and the list has no room for its slice.
fn refresh_full_list<L: Ledger>(rt: &impl Abort, alloc: Global, blank: Blank)
    requires name { blank.name ≡ L.name }
    requires parts { blank.parts ≡ L.parts }
    requires some { 0 < blank.parts }
{
    let white = Lit {
        part: Area::at(0, 0, 66, 3),
    };
    let panel = closed_panel(rt, alloc, 1);
    let mut stage = Stage::<_, L>::open(rt, alloc, blank, panel, 66, 3, 1);
    assert!(rt; stage.damage.take_slice(198).is_some());
    stage.add(Area::at(0, 0, 66, 2));
    add_dots(&mut stage.damage);
    check_count(rt, stage.damage.areas().len() as u64, 32);
    check_refreshed(rt, stage.refresh(&white), Refreshed::Fault);
    check_count(rt, stage.damage.areas().len() as u64, 1);
    check_refreshed(rt, stage.refresh(&white), Refreshed::Done);
    let lines = [[0, 0, 65, 0], [0, 0, 65, 0], [0, 1, 65, 1], [0, 2, 65, 2]];
    check_starts(rt, &stage.panel, &lines);
}

#[test]
fn a_full_list_becomes_the_panel_after_a_fault(rt: HostRuntime) {
    refresh_full_list::<Brand>(&rt, rt.alloc(), Blank::new(1));
}

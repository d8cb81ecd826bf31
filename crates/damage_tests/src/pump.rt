//! Pumps, changes and refreshes in turn, over a panel whose transfers take long and sometimes fail.
ghost use Rattle.std.specs.Prelude.{◌≡◌, ◌<◌, None};
ghost use Rattle.gui_base.specs.Grids.{one_pixel};

use crate::checking::Checking;
use crate::lit::Lit;
use crate::stage::Stage;
use gui_base::Area;
use gui_edge::{MemSink, Panel, SimPanel, SimPlan};
use gui_refresh::{Pumped, Refreshed};
use std::alloc::Global;
use std::marker::Brand;
use std::process::Abort;
use std::sync::ledger::{Blank, Ledger};

/// A panel that is not opened, for six by four pixels and buffers of six. A poll moves one pixel, the first
/// 400 times.
fn slow_panel(rt: &impl Abort, alloc: Global) -> Checking<SimPanel<MemSink>>
    ensures { (result.panel.limit ≡ 0) × (result.panel.coming ≡ None) }
{
    let plan = SimPlan {
        fail_open: false,
        fail_flush: Vec::from_slice(alloc, &[2, 7, 8, 19, 30]).expect(rt, "no memory"),
        fail_poll: Vec::from_slice(alloc, &[3, 20, 21, 90, 150]).expect(rt, "no memory"),
        moves: vec![in alloc; 1; 400].expect(rt, "no memory"),
    };
    let frames = MemSink::with_capacity(alloc, 0, Vec::new(alloc)).expect(rt, "no memory");
    let whole = Area::at(0, 0, 6, 4);
    Checking::new(SimPanel::new(frames, plan), whole, 6)
}

/// Goes one step on, or refreshes at every fortieth turn. A refresh that is done is idle then.
fn turn<P: Panel + Drop, L: Ledger>(n: u32, stage: &mut Stage<P, L>, picture: &Lit) -> Pumped
    ensures { stage.new.refresher.sizes ≡ stage.old.refresher.sizes }
{
    if n % 40 != 39 {
        return stage.pump(picture);
    }
    match stage.refresh(picture) {
        Refreshed::Done => Pumped::Idle,
        Refreshed::Fault => Pumped::Fault,
    }
}

/// Whether a panel of six by four pixels shows the picture.
fn shows(panel: &SimPanel<MemSink>, picture: &Lit) -> bool
    requires { (panel.now.width ≡ 6) × (panel.now.height ≡ 4) }
{
    for y in 0..4_u16 {
        for x in 0..6_u16 {
            if panel.shown(x, y) != picture.color(i32::from(x), i32::from(y)) {
                return false;
            }
        }
    }
    true
}

/// Counts an answer among those of its kind.
fn count(answers: &mut [u32; 4], answer: Pumped) {
    let kind = match answer {
        Pumped::Idle => 0,
        Pumped::Moved => 1,
        Pumped::Waiting => 2,
        Pumped::Fault => 3,
    };
    answers[kind] = answers[kind].saturating_add(1);
}

/// A part of a panel of six by four pixels, which may reach over its edges.
fn spot(n: u32) -> Area {
    let (x, y) = ((n % 7) as i32, (n % 5) as i32);
    Area::at(x - 1, y - 1, 1 + n % 4, 1 + n % 3)
}

/// Moves the white part of a picture at every fifth of 200 turns, and pumps or refreshes at each, and at 40
/// more. Each time that a step finds nothing to do the panel shows the picture.
fn take_turns<L: Ledger>(rt: &impl Abort, stage: &mut Stage<Checking<SimPanel<MemSink>>, L>)
    requires { stage.old.refresher.sizes
        ≡ record { width = 6; height = 4; limit = 6; block = one_pixel } }
{
    let mut picture = Lit { part: spot(0) };
    let mut answers = [0_u32; 4];
    for n in 0..240_u32 {
        if n % 5 == 0 && n < 200 {
            stage.add(picture.part);
            picture = Lit { part: spot(n) };
            stage.add(picture.part);
        }
        let answer = turn(n, stage, &picture);
        count(&mut answers, answer);
        if answer == Pumped::Idle {
            assert!(rt; shows(&stage.panel.panel, &picture), "at {n}");
        }
    }
    assert!(rt; answers.iter().all(|count| *count > 0), "{answers:?}");
}

/// Takes these turns over a slow panel.
fn pump_in_turn<L: Ledger>(rt: &impl Abort, alloc: Global, blank: Blank)
    requires name { blank.name ≡ L.name }
    requires parts { blank.parts ≡ L.parts }
    requires some { 0 < blank.parts }
{
    let panel = slow_panel(rt, alloc);
    let mut stage = Stage::<_, L>::open(rt, alloc, blank, panel, 6, 4, 1);
    take_turns(rt, &mut stage);
    assert_eq!(rt; stage.panel.broken, 0);
}

#[test]
fn changes_and_failures_at_any_step_leave_the_panel_right(rt: HostRuntime) {
    pump_in_turn::<Brand>(&rt, rt.alloc(), Blank::new(1));
}

//! A meter: each number on standard input is shown as a frame on standard output, by a bar, its digits, and a colour
//! that tells of an alarm. There is no script: the scene is made and changed by typed commands.
#![tactic(auto)]

ghost use Rattle.std.specs.Prelude.{◌≡◌, Err, None, Ok, Some, IfErr, IfOk, OnOk};
ghost use Rattle.gui_base.specs.declared.refusal.Refusal.{Refusal};
ghost use Rattle.gui_base.specs.Limits.{with_sizes};
ghost use Rattle.gui_core.specs.Machines.{machine_of};
ghost use Rattle.gui_edge.specs.Panel.{HasSizes};
ghost use Rattle.run_defs.specs.Run.{ShowsScene};
ghost use Rattle.meter.specs.Commands.{after_all, refusal_of_all};
ghost use Rattle.meter.specs.declared.fault.Fault.TheVariants as fault;
ghost use Rattle.meter.specs.Lines.{IsNumberOf, SaysNumber, number_in};
ghost use Rattle.meter.specs.Numbers.{number_commands};
ghost use Rattle.meter.specs.Ready.{IsReady};
ghost use Rattle.meter.specs.Shown.{Hinders, WritesPicture};

mod fault;
mod meter;

use fault::Fault;
use gui_base::{Block, Limits};
use gui_core::Gui;
use gui_edge::{Panel, SimPanel, SimPlan, Sink, StdSink};
use meter::{make_screen, show_number};
use std::alloc::Global;
use std::process::ExitCode;

/// A panel in memory of 64 by 24 pixels, of which nothing fails, and which takes slices of eight lines.
fn opened_panel<F: Sink + Drop>(alloc: Global, frames: F) -> Result<SimPanel<F>, Fault>
    ensures sizes { IfOk result (λ it. HasSizes (⟦<SimPanel<F> as Panel>⟧.state it) (with_sizes 64 24 8)) }
    ensures still { IfOk result (λ it. it.coming ≡ None) }
{
    let plan = SimPlan {
        fail_open: false,
        fail_flush: Vec::new(alloc),
        fail_poll: Vec::new(alloc),
        moves: Vec::new(alloc),
    };
    let mut panel = SimPanel::new(frames, plan);
    match panel.open(alloc, 64, 24, 512, Block { w: 1, h: 1 }) {
        Ok(()) => Ok(panel),
        Err(fault) => Err(Fault::from(fault)),
    }
}

/// The number that a line says, if it says one, as the standard library reads it.
fn number_of(text: &str) -> Option<i32>
    ensures { IsNumberOf text.now result }
{
    text.trim().parse().ok()
}

/// Shows the number that a line says. One that says none is passed over.
fn show_line<P: Panel>(text: &str, gui: &mut Gui, panel: &mut P) -> Result<(), Fault>
    requires { IsReady gui.old (P.state panel.old) }
    ensures ready { OnOk result (IsReady gui.new (P.state panel.new)) }
    ensures machine { SaysNumber text.now →
        machine_of gui.new ≡ after_all (machine_of gui.old) (number_commands (number_in text.now)) }
    ensures shows { SaysNumber text.now →
        OnOk result (ShowsScene (P.state panel.new).shows (machine_of gui.new).scene) }
    ensures writes { SaysNumber text.now →
        OnOk result (WritesPicture (P.state panel.old) (P.state panel.new) (machine_of gui.new).scene) }
    ensures refused { (refusal : Refusal) → SaysNumber text.now →
        refusal_of_all (machine_of gui.old) (number_commands (number_in text.now)) ≡ Some refusal →
        result ≡ Err (fault.Refused refusal) }
    ensures refused_panel { (refusal : Refusal) → SaysNumber text.now →
        refusal_of_all (machine_of gui.old) (number_commands (number_in text.now)) ≡ Some refusal →
        panel.new ≡ panel.old }
    ensures hinders { SaysNumber text.now →
        refusal_of_all (machine_of gui.old) (number_commands (number_in text.now)) ≡ None →
        IfErr result (λ fault. Hinders fault (P.state panel.old) (P.state panel.new)) }
    ensures other { ¬ (SaysNumber text.now) → result ≡ Ok tt }
    ensures other_machine { ¬ (SaysNumber text.now) → gui.new ≡ gui.old }
    ensures other_panel { ¬ (SaysNumber text.now) → panel.new ≡ panel.old }
{
    match number_of(text) {
        Some(number) => show_number(gui, panel, number),
        None => Ok(()),
    }
}

/// Shows each number of standard input.
fn show_numbers<P: Panel>(rt: &HostRuntime, gui: &mut Gui, panel: &mut P) -> Result<(), Fault>
    requires { IsReady gui.old (P.state panel.old) }
{
    make_screen(gui)?;
    for line in rt.lines(rt.alloc()) {
        let line = line?;
        show_line(line.as_str(), gui, panel)?;
    }
    Ok(())
}

/// Opens the machine and the panel, and shows the numbers.
fn run(rt: &HostRuntime) -> Result<(), Fault> {
    let alloc = rt.alloc();
    let mut panel = opened_panel(alloc, StdSink::new(rt.stdout()))?;
    let mut gui = Gui::open(alloc, &Limits::with_sizes(64, 24, 8))?;
    show_numbers(rt, &mut gui, &mut panel)
}

fn main(rt: HostRuntime) -> ExitCode {
    match run(&rt) {
        Ok(()) => ExitCode::from(0),
        Err(fault) => {
            let _ = eprintln!(rt; "meter: {fault}");
            ExitCode::from(1)
        }
    }
}

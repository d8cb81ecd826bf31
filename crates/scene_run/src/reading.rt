//! Reads the script in pieces.
ghost use Rattle.std.specs.Prelude.{◌≡◌, ◌⊎◌, ◌+◌, ◌∷◌, [], None};
ghost use Rattle.scene_defs.specs.Place.{panel_of};
ghost use Rattle.run_defs.specs.Machine.{Machine};
ghost use Rattle.run_defs.specs.Script.{max_script};
ghost use Rattle.gui_edge.specs.Causes.{Rose};
ghost use Rattle.gui_core.specs.Machines.{machine_of, pending_in, refresher_in, stage_of};
ghost use Rattle.gui_play.specs.Panels.{AgreesWith};
ghost use Rattle.gui_edge.specs.Panel.{PanelState, HasSizes};
ghost use Rattle.scene_run.specs.Effects.{SinceOpening};
ghost use Rattle.scene_run.specs.Headline.{Outside, outside, Runs, IfUnstarted};
ghost use Rattle.scene_run.specs.Running.{running, reading, IsReady, IsStill, Gone};

use crate::runner::Runner;
use crate::status::Status;
use gui_core::Gui;
use gui_edge::{Failed, Panel, Sink, Source};

/// The longest script in bytes.
const MAX_SCRIPT: usize = 16_777_216;

/// Reads the script to its end, and answers each of its lines. What it writes is counted from any moment
/// `before` on, since which nothing came to the panel.
pub fn read_script<S: Source, L: Sink, P: Panel>(
    gui: Gui,
    source: &mut S,
    log: &mut L,
    panel: &mut P,
) -> Status
    requires sizes { HasSizes (P.state panel.old) (machine_of gui).scene.limits }
    requires unstarted { (P.state panel.old).coming ≡ None }
    requires whole { (pending_in gui).areas ≡ panel_of (machine_of gui).scene ∷ [] }
    requires still { IsStill (refresher_in gui) }
    requires agrees { AgreesWith (stage_of gui (P.state panel.old)) (machine_of gui).scene }
    ensures runs { (before : PanelState) → SinceOpening before (P.state panel.old) →
        Runs (machine_of gui) (outside (S.state source.old) (L.state log.old) before)
        (outside (S.state source.new) (L.state log.new) (P.state panel.new)) result }
    ensures started { IfUnstarted result ⊥ }
    ensures read_fault { result ≡ Status.ReadFault →
        Rose (S.state source.old).faults (S.state source.new).faults }
    ensures write_fault { result ≡ Status.WriteFault → Rose (L.state log.old).faults (L.state log.new).faults
        ⊎ Rose (P.state panel.old).present_faults (P.state panel.new).present_faults }
{
    let mut runner = Runner::new(gui);
    read_pieces(&mut runner, source, log, panel)
}

/// Reads the script to its end, piece by piece. The runner has read nothing before.
fn read_pieces<S: Source, L: Sink, P: Panel>(
    runner: &mut Runner,
    source: &mut S,
    log: &mut L,
    panel: &mut P,
) -> Status
    requires { IsReady (running runner.old (L.state log.old) (P.state panel.old)) (max_script + 1) }
    ensures runs { (first : Machine) (start : Outside) →
        Gone first start (S.state source.old)
        (reading runner.old (L.state log.old) (P.state panel.old)) max_script →
        Runs first start (outside (S.state source.new) (L.state log.new) (P.state panel.new)) result }
    ensures started { IfUnstarted result ⊥ }
    ensures read_fault { result ≡ Status.ReadFault →
        Rose (S.state source.old).faults (S.state source.new).faults }
{
    let mut buffer = [0; 4096];
    let mut room = MAX_SCRIPT;
    for _ in 0..=MAX_SCRIPT {
        let count = match source.read(&mut buffer) {
            Ok(count) => count,
            Err(Failed) => return Status::ReadFault,
        };
        if count == 0 {
            match runner.finish(log, panel) {
                Ok(()) => return runner.status(),
                Err(Failed) => return Status::WriteFault,
            }
        }
        let within = buffer.split_at(count.min(room)).0;
        match runner.take_piece(within, log, panel) {
            Ok(()) => {}
            Err(Failed) => return Status::WriteFault,
        }
        if count > room {
            return Status::TooLong;
        }
        room -= count;
    }
    // Each turn takes a byte at least, so that the room would be used up.
    unreachable!()
}

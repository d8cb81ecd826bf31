//! Reads the script in pieces.
ghost use Rattle.std.specs.Prelude.{◌≡◌, ◌⊎◌, ◌+◌, ◌∷◌, [], None};
ghost use Rattle.scene_defs.specs.Place.{panel_of};
ghost use Rattle.run_defs.specs.Machine.{Machine};
ghost use Rattle.run_defs.specs.Script.{max_script};
ghost use Rattle.gui_edge.specs.Causes.{Rose};
ghost use Rattle.gui_edge.specs.Panel.{PanelState, HasSizes};
ghost use Rattle.gui_edge.specs.Sink.{SinkState};
ghost use Rattle.gui_core.specs.Machines.{machine_of, pending_in, refresher_in, stage_of};
ghost use Rattle.gui_play.specs.Panels.{AgreesWith};
ghost use Rattle.scene_run.specs.Effects.{SinceOpening};
ghost use Rattle.scene_run.specs.Headline.{Outside, outside, IfUnstarted};
ghost use Rattle.scene_run.specs.Running.{running, reading, IsReady, IsStill};
ghost use Rattle.scene_host.specs.Answering.{answering};
ghost use Rattle.scene_host.specs.Asked.{RunsAsked, HasGone};

use crate::asker::Asker;
use crate::host::Host;
use gui_core::Gui;
use gui_edge::{Failed, Panel, Sink, Source};
use scene_run::{Runner, Status};

/// The longest script in bytes.
const MAX_SCRIPT: usize = 16_777_216;

/// Reads the script to its end, and answers each of its lines and of its questions, as the reading of a scene
/// does. It tells too whether each answer was written.
pub(crate) fn read_asked<S: Source, L: Sink, A: Sink, P: Panel>(
    gui: Gui,
    source: &mut S,
    log: &mut L,
    answers: &mut A,
    panel: &mut P,
) -> (Status, bool)
    requires sizes { HasSizes (P.state panel.old) (machine_of gui).scene.limits }
    requires unstarted { (P.state panel.old).coming ≡ None }
    requires whole { (pending_in gui).areas ≡ panel_of (machine_of gui).scene ∷ [] }
    requires still { IsStill (refresher_in gui) }
    requires agrees { AgreesWith (stage_of gui (P.state panel.old)) (machine_of gui).scene }
    ensures runs { (before : PanelState) → SinceOpening before (P.state panel.old) →
        RunsAsked (machine_of gui) (outside (S.state source.old) (L.state log.old) before)
        (outside (S.state source.new) (L.state log.new) (P.state panel.new))
        (A.state answers.old) (A.state answers.new) result.1 result.0 }
    ensures started { IfUnstarted result.0 ⊥ }
    ensures read_fault { result.0 ≡ Status.ReadFault →
        Rose (S.state source.old).faults (S.state source.new).faults }
    ensures write_fault { result.0 ≡ Status.WriteFault → Rose (L.state log.old).faults (L.state log.new).faults
        ⊎ Rose (P.state panel.old).present_faults (P.state panel.new).present_faults }
{
    let runner = Runner::new(gui);
    let asker = Asker::new();
    let mut host = Host { runner, asker };
    let status = read_pieces(&mut host, source, log, answers, panel);
    (status, host.asker.has_answered())
}

/// Reads the host's lines to their end, piece by piece. The run has read nothing before.
fn read_pieces<S: Source, L: Sink, A: Sink, P: Panel>(
    host: &mut Host,
    source: &mut S,
    log: &mut L,
    answers: &mut A,
    panel: &mut P,
) -> Status
    requires { IsReady (running host.old.runner (L.state log.old) (P.state panel.old)) (max_script + 1) }
    ensures runs { (first : Machine) (start : Outside) (begun : SinkState) →
        HasGone first start begun (S.state source.old)
        (reading host.old.runner (L.state log.old) (P.state panel.old))
        (answering host.old.asker (A.state answers.old)) max_script →
        RunsAsked first start (outside (S.state source.new) (L.state log.new) (P.state panel.new))
        begun (A.state answers.new) host.new.asker.answered result }
    ensures started { IfUnstarted result ⊥ }
    ensures read_fault { result ≡ Status.ReadFault →
        Rose (S.state source.old).faults (S.state source.new).faults }
{
    let mut buffer = [0; 4096];
    let mut room = MAX_SCRIPT;
    for _ in 0..=MAX_SCRIPT {
        let count = match source.read(&mut buffer) {
            Ok(count) => count,
            Err(Failed) => return Status::ReadFault,
        };
        if count == 0 {
            match host.runner.finish(log, panel) {
                Ok(()) => return host.runner.status(),
                Err(Failed) => return Status::WriteFault,
            }
        }
        let within = buffer.split_at(count.min(room)).0;
        match host.take_piece(within, log, answers, panel) {
            Ok(()) => {}
            Err(Failed) => return Status::WriteFault,
        }
        if count > room {
            return Status::TooLong;
        }
        room -= count;
    }
    // Each turn takes a byte at least, so that the room would be used up.
    unreachable!()
}

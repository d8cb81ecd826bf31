//! The top call.
ghost use Rattle.std.specs.Prelude.{◌≡◌, None, map};
ghost use Rattle.panel_dcs.specs.DcsPanel.{dcs_state, unopened};
ghost use Rattle.panel_dcs.specs.Turning.{quarters};
ghost use Rattle.scene_dcs.specs.Words.{turn_in, limits_behind, quarters_or_none};
ghost use Rattle.scene_run.specs.Headline.{outside, IfUnstarted, AsksMade};
ghost use Rattle.scene_run.specs.Top.{RunsScene};

use gui_edge::{Sink, Source};
use panel_dcs::{Bus, DcsPanel, turn_of};
use scene_run::{Status, run_scene};
use std::alloc::Global;

/// Runs a scene, as `run_scene` does, on a panel over a bus, and hands the panel back. The first word is its turn: 0, 1, 2
/// or 3 quarters; the words after it are those of `run_scene`. The bus is not opened. The frames go to a sink.
///
/// Each promise of `run_scene` holds of that panel: what it shows is the memory of the controller, if the bus
/// tells it, through the turn, and its frames are the bytes of the sink. If the first word is no turn, or there
/// is none, nothing is read, written or opened.
pub fn run_dcs<S: Source, L: Sink, F: Sink, B: Bus>(
    alloc: Global,
    words: &[&str],
    source: &mut S,
    log: &mut L,
    frames: F,
    bus: B,
) -> (Status, DcsPanel<F, B>)
    requires { (B.state bus).columns ≡ 0 }
    ensures runs { RunsScene (limits_behind (map (λ w. w.now) words.now))
        (outside (S.state source.old) (L.state log.old) (dcs_state F.state B.state
        (unopened frames bus (quarters (quarters_or_none (turn_in (map (λ w. w.now) words.now)))))))
        (outside (S.state source.new) (L.state log.new) (dcs_state F.state B.state result.1.state)) result.0 }

    // If no word says a turn, nothing else is answered.
    ensures turn { turn_in (map (λ w. w.now) words.now) ≡ None → result.0 ≡ Status.Usage }

    // The panel is turned as the first word says.
    ensures turned { result.1.state.turned.turn
        ≡ quarters (quarters_or_none (turn_in (map (λ w. w.now) words.now))) }

    // If no byte is read, what was handed in stays as it is, and not only what is told of it.
    ensures unread { IfUnstarted result.0 (source.new ≡ source.old) }
    ensures unwritten { IfUnstarted result.0 (log.new ≡ log.old) }
    ensures unopened { result.0 ≡ Status.Usage → result.1.state
        ≡ unopened frames bus (quarters (quarters_or_none (turn_in (map (λ w. w.now) words.now)))) }

    // If a made script is asked for, the source stays as it is too, also if it tells nothing.
    ensures made { AsksMade (limits_behind (map (λ w. w.now) words.now)) → source.new ≡ source.old }
{
    match words {
        [] => (Status::Usage, DcsPanel::new(frames, bus, 0)),
        [word, rest @ ..] => match turn_of(word) {
            None => (Status::Usage, DcsPanel::new(frames, bus, 0)),
            Some(turn) => {
                let mut panel = DcsPanel::new(frames, bus, turn);
                let status = run_scene(alloc, rest, source, log, &mut panel);
                (status, panel)
            }
        },
    }
}

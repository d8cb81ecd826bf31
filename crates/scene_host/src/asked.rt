//! A run whose questions are answered, over any panel.
ghost use Rattle.std.specs.Prelude.{◌≡◌, map};
ghost use Rattle.run_defs.specs.Words.{limits_of};
ghost use Rattle.scene_run.specs.Headline.{outside, IfUnstarted};
ghost use Rattle.scene_run.specs.Top.{RunsScene};
ghost use Rattle.scene_host.specs.Asked.{Answers};

use crate::reading::read_asked;
use gui_base::NoMemory;
use gui_core::Gui;
use gui_edge::{OpenFault, Panel, Sink, Source};
use scene_run::{Status, run_made};
use scene_script::limits_of;
use std::alloc::Global;

/// Runs a scene as `run_scene` does with these words, and answers the questions of its script: comments that
/// begin with `#?`. Each is answered by the machine after the lines before it. It tells how the run ended, and
/// whether each answer was written: the run goes on if that fails, and nothing more is answered.
pub fn run_asked<S: Source, L: Sink, A: Sink, P: Panel>(
    alloc: Global,
    words: &[&str],
    source: &mut S,
    log: &mut L,
    answers: &mut A,
    panel: &mut P,
) -> (Status, bool)
    requires { (P.state panel.old).limit ≡ 0 }
    // What is told of the source, the log and the panel: each promise of `run_scene`.
    ensures runs { RunsScene (limits_of (map (λ w. w.now) words.now))
        (outside (S.state source.old) (L.state log.old) (P.state panel.old))
        (outside (S.state source.new) (L.state log.new) (P.state panel.new)) result.0 }

    // What is answered to the questions in the bytes that were taken.
    ensures answers { Answers (limits_of (map (λ w. w.now) words.now))
        (outside (S.state source.old) (L.state log.old) (P.state panel.old))
        (outside (S.state source.new) (L.state log.new) (P.state panel.new))
        (A.state answers.old) (A.state answers.new) result.1 result.0 }

    // If no byte is read, what was handed in stays as it is, and not only what is told of it.
    ensures unread { IfUnstarted result.0 (source.new ≡ source.old) }
    ensures unwritten { IfUnstarted result.0 (log.new ≡ log.old) }
    ensures unanswered { IfUnstarted result.0 (answers.new ≡ answers.old) }
    ensures unopened { result.0 ≡ Status.Usage → panel.new ≡ panel.old }
{
    let limits = match limits_of(alloc, words) {
        Ok(Some(limits)) => limits,
        Ok(None) => return (Status::Usage, true),
        Err(NoMemory) => return (Status::NoMemory, true),
    };
    let gui = match Gui::open(alloc, &limits) {
        Ok(gui) => gui,
        Err(NoMemory) => return (Status::NoMemory, true),
    };
    let limit = limits.width * limits.lines;
    match panel.open(
        alloc,
        limits.width as u16,
        limits.height as u16,
        limit,
        limits.block,
    ) {
        Ok(()) => match limits.make {
            None => read_asked(gui, source, log, answers, panel),
            // A made script asks nothing.
            Some(k) => (run_made(gui, k, &limits, log, panel), true),
        },
        Err(OpenFault::Failed) => (Status::PanelFault, true),
        Err(OpenFault::NoMemory) => (Status::NoMemory, true),
    }
}

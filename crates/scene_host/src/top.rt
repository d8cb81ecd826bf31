//! The top call.
ghost use Rattle.std.specs.Prelude.{◌≡◌, ◌<◌, map};
ghost use Rattle.std.specs.Option.{ForSome};
ghost use Rattle.panel_stream.specs.StreamPanel.{AreWhole};
ghost use Rattle.run_defs.specs.Words.{limits_of};
ghost use Rattle.scene_run.specs.Headline.{IfUnstarted};
ghost use Rattle.scene_host.specs.Streaming.{RunsHost};

use crate::asked::run_asked;
use gui_base::Steps;
use gui_edge::{Sink, Source};
use panel_stream::{Steady, StreamPanel};
use scene_run::Status;
use std::alloc::Global;
use std::marker::Brand;
use std::sync::ledger::{Blank, Ledger};

/// How a run for a host ended.
#[derive(Drop)]
pub struct HostEnd<T> {
    /// How the run ended.
    pub status: Status,
    /// Whether each answer to a question was written.
    pub answered: bool,
    /// The stream.
    pub out: T,
}

/// Runs a scene, as `run_scene` does with these words, on a panel that writes each area that changes and a mark
/// at each frame to a stream, and hands the stream back. If the stream tells what it holds, these are whole
/// records. The questions of the script are answered besides: comments that begin with `#?`, each by the
/// machine after the lines before it.
///
/// Each promise of `run_scene` holds of that panel: what it shows is what a viewer has who replays the stream's bytes,
/// and its frames are the pictures that the viewer has at the marks.
pub fn run_host<S: Source, L: Sink, A: Sink, T: Steady>(
    alloc: Global,
    words: &[&str],
    source: &mut S,
    log: &mut L,
    answers: &mut A,
    out: T,
) -> HostEnd<T>
    requires { ForSome (T.state out).held AreWhole }
    ensures runs { RunsHost T.state (limits_of (map (λ w. w.now) words.now))
        (S.state source.old) (L.state log.old) (A.state answers.old) out
        (S.state source.new) (L.state log.new) (A.state answers.new) result }

    // If no byte is read, what was handed in stays as it is, and not only what is told of it.
    ensures unread { IfUnstarted result.status (source.new ≡ source.old) }
    ensures unwritten { IfUnstarted result.status (log.new ≡ log.old) }
    ensures unanswered { IfUnstarted result.status (answers.new ≡ answers.old) }
    ensures unopened { result.status ≡ Status.Usage → result.out ≡ out }
{
    run_counted::<S, L, A, T, Brand>(alloc, words, source, log, answers, out, Blank::new(1))
}

/// Runs a host with a blank ledger, in which the panel counts its faults.
fn run_counted<S: Source, L: Sink, A: Sink, T: Steady, B: Ledger>(
    alloc: Global,
    words: &[&str],
    source: &mut S,
    log: &mut L,
    answers: &mut A,
    out: T,
    blank: Blank,
) -> HostEnd<T>
    requires whole { ForSome (T.state out).held AreWhole }
    requires name { blank.name ≡ B.name }
    requires parts { blank.parts ≡ B.parts }
    requires some { 0 < blank.parts }
    ensures runs { RunsHost T.state (limits_of (map (λ w. w.now) words.now))
        (S.state source.old) (L.state log.old) (A.state answers.old) out
        (S.state source.new) (L.state log.new) (A.state answers.new) result }
    ensures unread { IfUnstarted result.status (source.new ≡ source.old) }
    ensures unwritten { IfUnstarted result.status (log.new ≡ log.old) }
    ensures unanswered { IfUnstarted result.status (answers.new ≡ answers.old) }
    ensures unopened { result.status ≡ Status.Usage → result.out ≡ out }
{
    let (book, all) = blank.open::<B>();
    let mut panel = StreamPanel::new(out, Steps::new(book, all));
    let (status, answered) = run_asked(alloc, words, source, log, answers, &mut panel);
    HostEnd {
        status,
        answered,
        out: panel.into_out(),
    }
}

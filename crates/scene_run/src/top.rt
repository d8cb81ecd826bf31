//! The top call.
ghost use Rattle.std.specs.Prelude.{◌≡◌, map};
ghost use Rattle.run_defs.specs.Words.{limits_of};
ghost use Rattle.scene_run.specs.Headline.{outside, IfUnstarted, AsksMade};
ghost use Rattle.scene_run.specs.Top.{RunsScene};

use crate::made::run_made;
use crate::reading::read_script;
use crate::status::Status;
use gui_base::NoMemory;
use gui_core::Gui;
use gui_edge::{OpenFault, Panel, Sink, Source};
use scene_script::limits_of;
use std::alloc::Global;

/// Reads the words, opens the machine and the panel, reads the script line by line, writes the replies to the
/// log and presents each finished frame. If the words ask for a made script, nothing is read: its lines are
/// answered in the same way, and the log gets one line that counts them.
///
/// For every script and however the panel fails, each frame written is the picture that painting afresh, back
/// to front, gives of all objects shown in the scene which the script's commands, inputs and ticks have made;
/// the panel shows it too, sent in slices no larger than the draw buffer and within the pixels its touched
/// places owe; a fault line replaces it only for a failed flush.
///
/// Memory is taken at the opening alone.
pub fn run_scene<S: Source, L: Sink, P: Panel>(
    alloc: Global,
    words: &[&str],
    source: &mut S,
    log: &mut L,
    panel: &mut P,
) -> Status
    requires { (P.state panel.old).limit ≡ 0 }
    // What is told of the source, the log and the panel.
    ensures runs { RunsScene (limits_of (map (λ w. w.now) words.now))
        (outside (S.state source.old) (L.state log.old) (P.state panel.old))
        (outside (S.state source.new) (L.state log.new) (P.state panel.new)) result }

    // If no byte is read, what was handed in stays as it is, and not only what is told of it.
    ensures unread { IfUnstarted result (source.new ≡ source.old) }
    ensures unwritten { IfUnstarted result (log.new ≡ log.old) }
    ensures unopened { result ≡ Status.Usage → panel.new ≡ panel.old }

    // If a made script is asked for, the source stays as it is too, also if it tells nothing.
    ensures made { AsksMade (limits_of (map (λ w. w.now) words.now)) → source.new ≡ source.old }
{
    let limits = match limits_of(alloc, words) {
        Ok(Some(limits)) => limits,
        Ok(None) => return Status::Usage,
        Err(NoMemory) => return Status::NoMemory,
    };
    let gui = match Gui::open(alloc, &limits) {
        Ok(gui) => gui,
        Err(NoMemory) => return Status::NoMemory,
    };
    let limit = limits.width * limits.lines;
    match panel.open(
        alloc,
        limits.width as u16,
        limits.height as u16,
        limit,
        limits.block,
    ) {
        Ok(()) => match limits.make {
            None => read_script(gui, source, log, panel),
            Some(k) => run_made(gui, k, &limits, log, panel),
        },
        Err(OpenFault::Failed) => Status::PanelFault,
        Err(OpenFault::NoMemory) => Status::NoMemory,
    }
}

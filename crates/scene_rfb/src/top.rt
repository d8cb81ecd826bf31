//! The top call.
ghost use Rattle.std.specs.Prelude.{◌≡◌, map, false, IfOk};
ghost use Rattle.gui_base.specs.Bounded.{bounds_of};
ghost use Rattle.rfb_view.specs.Endings.{outside, IfUnstarted};
ghost use Rattle.rfb_view.specs.Running.{IsFresh};
ghost use Rattle.rfb_view.specs.Talking.{outs, IsOver};
ghost use Rattle.rfb_view.specs.Words.{settings_of};
ghost use Rattle.run_defs.specs.Machine.{first_machine};
ghost use Rattle.scene_rfb.specs.Runs.{RunsSession, ShowsAs};

use crate::screen::Screen;
use gui_base::NoMemory;
use gui_edge::{Sink, Source};
use rfb_view::{RfbStatus, Settings, Sight, Talk, Viewed, run_session, settings_of};
use std::alloc::Global;

/// Opens the machine, its panel, and what counts as told to the viewer.
fn open(alloc: Global, settings: &Settings) -> Result<(Screen, Talk), NoMemory>
    ensures machine { IfOk result (λ it. ⟦<Screen as Viewed>⟧.machine it.0 ≡ first_machine (bounds_of settings.now.limits)) }
    ensures over { IfOk result (λ it. IsOver (⟦<Screen as Viewed>⟧.machine it.0) it.1) }
    ensures fresh { IfOk result (λ it. IsFresh (⟦<Screen as Viewed>⟧.machine it.0) it.1) }
    ensures unnoted { IfOk result (λ it. it.1.noted ≡ false) }
    ensures ms { IfOk result (λ it. it.1.ms ≡ settings.now.ms) }
{
    let limits = settings.limits;
    let sight = Sight::open(alloc, (limits.width * limits.height) as usize)?;
    let screen = Screen::open(alloc, &limits)?;
    let talk = Talk::new(
        settings.ms,
        limits.width as u16,
        limits.height as u16,
        sight,
    );
    Ok((screen, talk))
}

/// Reads the words, opens the machine, and runs a session with a viewer: the source has the lines of a script
/// up to the line `rfb`, and from then on what the viewer sends. The output gets what is sent to it, and the
/// log the replies to the lines and what events write. Memory is taken before the first byte is read.
#[tactic(auto, using(crate::proofs::Tops::runs_unusable, crate::proofs::Tops::runs_short))]
pub fn run_rfb<S: Source, O: Sink, L: Sink>(
    alloc: Global,
    words: &[&str],
    source: &mut S,
    out: &mut O,
    log: &mut L,
) -> RfbStatus
    // What is told of the source, the output and the log.
    ensures runs { RunsSession (settings_of (map (λ w. w.now) words.now))
        (outside (S.state source.old) (outs (O.state out.old) (L.state log.old)))
        (outside (S.state source.new) (outs (O.state out.new) (L.state log.new))) result }

    // What the viewer reads of the output.
    ensures seen { ShowsAs (settings_of (map (λ w. w.now) words.now))
        (outside (S.state source.old) (outs (O.state out.old) (L.state log.old)))
        (outside (S.state source.new) (outs (O.state out.new) (L.state log.new))) result }

    // If no byte is read, what was handed in stays as it is, and not only what is told of it.
    ensures unread { IfUnstarted result (source.new ≡ source.old) }
    ensures unwritten { IfUnstarted result (out.new ≡ out.old) }
    ensures unlogged { IfUnstarted result (log.new ≡ log.old) }
{
    let settings = match settings_of(alloc, words) {
        Ok(Some(settings)) => settings,
        Ok(None) => return RfbStatus::Usage,
        Err(NoMemory) => return RfbStatus::NoMemory,
    };
    match open(alloc, &settings) {
        Ok((mut screen, talk)) => run_session(talk, &mut screen, source, out, log),
        Err(NoMemory) => RfbStatus::NoMemory,
    }
}

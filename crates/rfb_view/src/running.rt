//! Reads the bytes of a run in pieces.
ghost use Rattle.std.specs.Prelude.{◌≡◌, ◌⊎◌, [], None, false};
ghost use Rattle.gui_edge.specs.Causes.{Rose};
ghost use Rattle.run_defs.specs.Machine.{Machine};
ghost use Rattle.rfb_view.specs.Endings.{outside, Serves};
ghost use Rattle.rfb_view.specs.Running.{IsFresh, HasRead, is_overlong};
ghost use Rattle.rfb_view.specs.Talking.{Outs, outs, IsOver};

use crate::run::Run;
use crate::status::RfbStatus;
use crate::talk::Talk;
use crate::viewed::Viewed;
use gui_edge::{Failed, Sink, Source};

/// The longest script in bytes, and the longest run.
const MAX_SCRIPT: u64 = 16_777_216;

const MAX_RUN: u64 = 1 << 40;

/// Reads the bytes to their end, and answers the lines of the script and then the viewer. What answers a piece
/// is written before the next piece is read.
pub fn run_session<V: Viewed, S: Source, O: Sink, L: Sink>(
    talk: Talk,
    viewed: &mut V,
    source: &mut S,
    out: &mut O,
    log: &mut L,
) -> RfbStatus
    requires over { IsOver (V.machine viewed.old) talk }
    requires fresh { IsFresh (V.machine viewed.old) talk }
    requires unnoted { talk.noted ≡ false }
    ensures serves { Serves talk.ms (V.machine viewed.old)
        (outside (S.state source.old) (outs (O.state out.old) (L.state log.old)))
        (outside (S.state source.new) (outs (O.state out.new) (L.state log.new))) result }
    ensures read_fault { result ≡ RfbStatus.ReadFault →
        Rose (S.state source.old).faults (S.state source.new).faults }
    ensures write_fault { result ≡ RfbStatus.WriteFault → Rose (O.state out.old).faults (O.state out.new).faults
        ⊎ Rose (L.state log.old).faults (L.state log.new).faults }
{
    let mut run = Run::new(talk);
    read_pieces(&mut run, viewed, source, out, log)
}

/// Reads the session to its end, piece by piece. The run has read nothing before.
fn read_pieces<V: Viewed, S: Source, O: Sink, L: Sink>(
    run: &mut Run,
    viewed: &mut V,
    source: &mut S,
    out: &mut O,
    log: &mut L,
) -> RfbStatus
    requires over { IsOver (V.machine viewed.old) run.old.talk }
    requires quiet { run.old.talk.fault ≡ None }
    requires number { run.old.number ≡ 1 }
    requires count { run.old.talk.hearing.count ≡ 0 }
    ensures serves { (first : Machine) (start : Outs) →
        HasRead first start (V.machine viewed.old) run.old (outs (O.state out.old) (L.state log.old)) [] →
        Serves run.old.talk.ms first (outside (S.state source.old) start)
        (outside (S.state source.new) (outs (O.state out.new) (L.state log.new))) result }
    ensures read_fault { result ≡ RfbStatus.ReadFault →
        Rose (S.state source.old).faults (S.state source.new).faults }
    ensures write_fault { result ≡ RfbStatus.WriteFault → Rose (O.state out.old).faults (O.state out.new).faults
        ⊎ Rose (L.state log.old).faults (L.state log.new).faults }
{
    let mut buffer = [0; 4096];
    let mut taken = 0;
    for _ in 0..=MAX_RUN {
        let count = match source.read(&mut buffer) {
            Ok(count) => count,
            Err(Failed) => return RfbStatus::ReadFault,
        };
        if count == 0 {
            match run.finish(viewed, out, log) {
                Ok(status) => return status,
                Err(Failed) => return RfbStatus::WriteFault,
            }
        }
        let piece = buffer.split_at(count).0;
        match run.take_piece(piece, viewed, out, log) {
            Ok(()) => {}
            Err(Failed) => return RfbStatus::WriteFault,
        }
        taken += count as u64;
        if is_too_long(run, taken) {
            return RfbStatus::TooLong;
        }
        if let Some(why) = run.talk.fault {
            return RfbStatus::Bad(why);
        }
    }
    // Each turn takes a byte at least, so that too many would have been taken.
    unreachable!()
}

/// Whether so many bytes are too many for a script, or for a run.
fn is_too_long(run: &Run, taken: u64) -> bool
    ensures { result ≡ is_overlong run.now taken }
{
    (!run.begun && taken > MAX_SCRIPT) || taken > MAX_RUN
}

//! A run under way whose questions are answered.
ghost use Rattle.std.specs.Prelude.{◌≡◌, ◌∷◌, [], length, OnOk, OnErr, true};
ghost use Rattle.run_defs.specs.Script.{max_script};
ghost use Rattle.scene_run.specs.Effects.{output};
ghost use Rattle.scene_run.specs.Running.{running, reading, IsReady, Reads, Stops};
ghost use Rattle.scene_script.specs.Cutting.{HasTaken};
ghost use Rattle.scene_host.specs.Answering.{answering};
ghost use Rattle.scene_host.specs.Asked.{Hears, StopsHearing};

use crate::asker::Asker;
use gui_edge::{Failed, Panel, Sink};
use scene_run::Runner;

/// A run, and who hears its questions.
#[derive(Drop)]
pub(crate) struct Host {
    pub(crate) runner: Runner,
    pub(crate) asker: Asker,
}

impl Host {
    /// Takes a byte of the script. Its questions are answered by the machine as it was before.
    fn take_byte<L: Sink, A: Sink, P: Panel>(
        &mut self,
        byte: u8,
        log: &mut L,
        answers: &mut A,
        panel: &mut P,
    ) -> Result<(), Failed>
        requires ready { IsReady (running self.old.runner (L.state log.old) (P.state panel.old)) 1 }
        ensures ok { OnOk result (Reads (reading self.old.runner (L.state log.old) (P.state panel.old))
            (reading self.new.runner (L.state log.new) (P.state panel.new)) (byte ∷ [])) }
        ensures err { OnErr result (Stops (reading self.old.runner (L.state log.old) (P.state panel.old))
            (output (L.state log.new) (P.state panel.new)) (byte ∷ [])) }
        ensures hears { Hears (reading self.old.runner (L.state log.old) (P.state panel.old))
            (answering self.old.asker (A.state answers.old)) (answering self.new.asker (A.state answers.new))
            (byte ∷ []) }
    {
        self.asker
            .hear(byte, &self.runner.gui, self.runner.number, answers);
        self.runner.take_piece(&[byte], log, panel)
    }

    /// Takes a piece of the script.
    pub(crate) fn take_piece<L: Sink, A: Sink, P: Panel>(
        &mut self,
        piece: &[u8],
        log: &mut L,
        answers: &mut A,
        panel: &mut P,
    ) -> Result<(), Failed>
        requires ready { IsReady (running self.old.runner (L.state log.old) (P.state panel.old)) (length piece.now) }
        ensures ok { OnOk result (Reads (reading self.old.runner (L.state log.old) (P.state panel.old))
            (reading self.new.runner (L.state log.new) (P.state panel.new)) piece.now) }
        ensures heard { OnOk result (Hears (reading self.old.runner (L.state log.old) (P.state panel.old))
            (answering self.old.asker (A.state answers.old)) (answering self.new.asker (A.state answers.new))
            piece.now) }
        ensures err { OnErr result (StopsHearing (reading self.old.runner (L.state log.old) (P.state panel.old))
            (output (L.state log.new) (P.state panel.new)) (answering self.old.asker (A.state answers.old))
            (answering self.new.asker (A.state answers.new)) piece.now) }
    {
        for byte in piece {
            self.take_byte(*byte, log, answers, panel)?;
        }
        Ok(())
    }
}

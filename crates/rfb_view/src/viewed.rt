//! What a viewer looks at.
ghost use Rattle.std.specs.Prelude.{◌≡◌, ◌∷◌, [], List, IfOk, OnOk, OnErr};
ghost use Rattle.std.specs.Io.KnownBytes.{Appends};
ghost use Rattle.gui_base.specs.declared.color.Rgb565.{Rgb565 as Color};
ghost use Rattle.gui_edge.specs.Causes.{HasCause};
ghost use Rattle.gui_edge.specs.Sink.{AppendsPrefix};
ghost use Rattle.run_defs.specs.Laws.{IsInRange};
ghost use Rattle.run_defs.specs.Machine.{Machine};
ghost use Rattle.run_defs.specs.Run.{machine_after, log_text, noted};
ghost use Rattle.run_defs.specs.Step.{step, is_noted, IsCommand};
ghost use Rattle.scene_defs.specs.Picture.{picture};
ghost use Rattle.session_defs.specs.Sessions.{unframed};
ghost use Rattle.rfb_view.specs.Telling.{line_tells};

use gui_base::Rgb565;
use gui_edge::{Failed, Sink};
use run_defs::{Command, Line, LineFault};

/// What a viewer looks at: a machine that answers the lines of a script, hears inputs, and has a picture.
pub trait Viewed {
    ghost machine: { Self → Machine };

    ghost painted: { Self → List Color };

    /// Answers a line of the script, with this number, and tells whether it or an action was refused. A line
    /// that asks for a frame or a pump has no form of the language. If the log fails, it holds a prefix of what
    /// the line writes.
    fn answer<L: Sink>(
        &mut self,
        said: &Result<Line, LineFault>,
        number: u32,
        log: &mut L,
    ) -> Result<bool, Failed>
        requires { IsInRange said.now }
        ensures machine { machine self.new ≡ machine_after (machine self.old) (unframed said.now) }
        ensures noted { IfOk result (λ n. n ≡ noted (line_tells (machine self.old) number said.now)) }
        ensures ok { OnOk result (Appends (L.state log.old).held (L.state log.new).held
            (log_text (line_tells (machine self.old) number said.now))) }
        ensures err { OnErr result (AppendsPrefix (L.state log.old).held (L.state log.new).held
            (log_text (line_tells (machine self.old) number said.now))) }
        ensures cause { HasCause (L.state log.old).faults (L.state log.new).faults result };

    /// Carries out an input, and tells whether it or an action was refused. What its events write goes to the
    /// log, or, if that fails, a prefix of it.
    fn hear<L: Sink>(&mut self, command: &Command, log: &mut L) -> Result<bool, Failed>
        requires { IsCommand command.now }
        ensures machine { machine self.new ≡ (step (machine self.old) command.now).machine }
        ensures noted { IfOk result (λ n. n ≡ is_noted (step (machine self.old) command.now).reply) }
        ensures ok { OnOk result (Appends (L.state log.old).held (L.state log.new).held
            (step (machine self.old) command.now).lines) }
        ensures err { OnErr result (AppendsPrefix (L.state log.old).held (L.state log.new).held
            (step (machine self.old) command.now).lines) }
        ensures cause { HasCause (L.state log.old).faults (L.state log.new).faults result };

    /// Paints the picture.
    fn paint(&mut self)
        ensures machine { machine self.new ≡ machine self.old }
        ensures painted { painted self.new ≡ picture (machine self.old).scene };

    /// The colours that were painted last, row by row.
    fn pixels(&self) -> &[Rgb565]
        ensures { result.now ≡ painted self.now };
}

//! A run under way.
ghost use Rattle.std.specs.Prelude.{◌≡◌, ◌+◌, ◌^◌, ◌<◌, ◌∷◌, [], ◌||◌, length, if◌then◌else◌};
ghost use Rattle.std.specs.Prelude.{OnOk, OnErr, IfSome, false};
ghost use Rattle.std.specs.Option.{option_to_list};
ghost use Rattle.run_defs.specs.Laws.{IsInRange};
ghost use Rattle.scene_script.specs.Cutting.{HasTaken, cut_says};
ghost use Rattle.scene_run.specs.Counting.{frames_in};
ghost use Rattle.scene_run.specs.Effects.{output};
ghost use Rattle.scene_run.specs.Running.{running, reading, IsReady, GoesOn, Halts, Reads, Stops, Ends};
ghost use Rattle.scene_run.specs.Running.{StopsAtEnd};

use crate::answer::{LineEnd, answer};
use crate::status::Status;
use gui_core::Gui;
use gui_edge::{Failed, Panel, Sink};
use run_defs::Outcome;
use scene_script::{Cut, Cutter, Line, LineFault, parse_line};

/// The machine, the line that is read, the numbers of the next line and the next frame, and whether a line
/// was refused or a frame faulted.
#[derive(Drop)]
pub struct Runner {
    pub gui: Gui,
    pub cutter: Cutter,
    pub number: u32,
    pub frame: u32,
    pub noted: bool,
}

impl Runner {
    /// A run of which nothing is read yet.
    pub fn new(gui: Gui) -> Runner
        ensures gui { result.gui ≡ gui }
        ensures line { HasTaken result.cutter [] }
        ensures number { result.number ≡ 1 }
        ensures frame { result.frame ≡ 1 }
        ensures noted { result.noted ≡ false }
    {
        Runner {
            gui,
            cutter: Cutter::new(),
            number: 1,
            frame: 1,
            noted: false,
        }
    }

    /// Goes on to the next line.
    fn go_on(&mut self, end: LineEnd)
        requires number { self.old.number + 1 < 2 ^ 32 }
        requires frame { self.old.frame + 1 < 2 ^ 32 }
        ensures gui { self.new.gui ≡ self.old.gui }
        ensures line { self.new.cutter ≡ self.old.cutter }
        ensures number { self.new.number ≡ self.old.number + 1 }
        ensures frame { self.new.frame ≡ self.old.frame + frames_in end.outcome }
        ensures noted { self.new.noted ≡ (self.old.noted || end.noted) }
    {
        self.number += 1;
        if let Some(Outcome::Frame(_)) = end.outcome {
            self.frame += 1;
        }
        self.noted = self.noted || end.noted;
    }

    /// Answers the line that the cutter's last answer made whole, if it made one.
    fn take_cut<L: Sink, P: Panel>(
        &mut self,
        cut: Cut,
        log: &mut L,
        panel: &mut P,
    ) -> Result<(), Failed>
        requires answer { cut ≡ self.old.cutter.answer }
        requires ready { IsReady (running self.old (L.state log.old) (P.state panel.old)) 1 }
        ensures ok { OnOk result (GoesOn (running self.old (L.state log.old) (P.state panel.old))
            (running self.new (L.state log.new) (P.state panel.new)) (cut_says self.old.cutter)) }
        ensures err { OnErr result (Halts (running self.old (L.state log.old) (P.state panel.old))
            (output (L.state log.new) (P.state panel.new)) (cut_says self.old.cutter)) }
        ensures line { self.new.cutter ≡ self.old.cutter }
    {
        let Some(said) = said(&self.cutter, cut) else {
            return Ok(());
        };
        let end = answer(&mut self.gui, &said, self.number, self.frame, log, panel)?;
        self.go_on(end);
        Ok(())
    }

    /// Takes a byte of the script.
    fn take_byte<L: Sink, P: Panel>(
        &mut self,
        byte: u8,
        log: &mut L,
        panel: &mut P,
    ) -> Result<(), Failed>
        requires ready { IsReady (running self.old (L.state log.old) (P.state panel.old)) 1 }
        ensures ok { OnOk result (Reads (reading self.old (L.state log.old) (P.state panel.old))
            (reading self.new (L.state log.new) (P.state panel.new)) (byte ∷ [])) }
        ensures err { OnErr result (Stops (reading self.old (L.state log.old) (P.state panel.old))
            (output (L.state log.new) (P.state panel.new)) (byte ∷ [])) }
    {
        let cut = self.cutter.push(byte);
        self.take_cut(cut, log, panel)
    }

    /// Takes a piece of the script.
    pub fn take_piece<L: Sink, P: Panel>(
        &mut self,
        piece: &[u8],
        log: &mut L,
        panel: &mut P,
    ) -> Result<(), Failed>
        requires ready { IsReady (running self.old (L.state log.old) (P.state panel.old)) (length piece.now) }
        ensures ok { OnOk result (Reads (reading self.old (L.state log.old) (P.state panel.old))
            (reading self.new (L.state log.new) (P.state panel.new)) piece.now) }
        ensures err { OnErr result (Stops (reading self.old (L.state log.old) (P.state panel.old))
            (output (L.state log.new) (P.state panel.new)) piece.now) }
    {
        for byte in piece {
            self.take_byte(*byte, log, panel)?;
        }
        Ok(())
    }

    /// Answers what is left of a line at the end of the script.
    pub fn finish<L: Sink, P: Panel>(&mut self, log: &mut L, panel: &mut P) -> Result<(), Failed>
        requires ready { IsReady (running self.old (L.state log.old) (P.state panel.old)) 1 }
        ensures ok { OnOk result (Ends (reading self.old (L.state log.old) (P.state panel.old))
            (running self.new (L.state log.new) (P.state panel.new))) }
        ensures err { OnErr result (StopsAtEnd (reading self.old (L.state log.old) (P.state panel.old))
            (output (L.state log.new) (P.state panel.new))) }
    {
        let cut = self.cutter.finish();
        self.take_cut(cut, log, panel)
    }

    /// How a run ended whose script was answered to its end.
    pub fn status(&self) -> Status
        ensures { result ≡ (if self.now.noted then Status.Noted else Status.Done) }
    {
        if self.noted {
            Status::Noted
        } else {
            Status::Done
        }
    }
}

/// What the line says that the cutter's last answer made whole, if it made one.
#[tactic(auto, using(run_defs::proofs::Ranges::says_in_range))]
fn said(cutter: &Cutter, cut: Cut) -> Option<Result<Line, LineFault>>
    requires { cut ≡ cutter.now.answer }
    ensures says { option_to_list result ≡ cut_says cutter.now }
    ensures in_range { IfSome result IsInRange }
{
    match cut {
        Cut::More => None,
        Cut::Line => Some(parse_line(cutter.line())),
        Cut::Long => Some(Err(LineFault::Long)),
    }
}

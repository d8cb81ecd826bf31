//! A run under way: the script up to the line `rfb`, and then the talk with a viewer.
ghost use Rattle.std.specs.Prelude.{◌≡◌, ◌+◌, ◌^◌, ◌<◌, ◌∷◌, ◌||◌, [], ℕ, List, length, Some, false, true};
ghost use Rattle.std.specs.Prelude.{OnOk, OnErr, IfOk, IfSome};
ghost use Rattle.std.specs.Io.KnownBytes.{Appends};
ghost use Rattle.std.specs.Option.{option_to_list};
ghost use Rattle.gui_edge.specs.Causes.{HasCause};
ghost use Rattle.gui_edge.specs.Sink.{AppendsPrefix};
ghost use Rattle.run_defs.specs.Laws.{IsInRange};
ghost use Rattle.scene_script.specs.Cutting.{HasTaken, cut_says};
ghost use Rattle.session_defs.specs.Sessions.{version};
ghost use Rattle.rfb_view.specs.Cuts.{begins, CutDone, CutBroke};
ghost use Rattle.rfb_view.specs.Endings.{lack, IsEnd};
ghost use Rattle.rfb_view.specs.Running.{HasRoom, ReadsOn, BreaksOff, Finishes, FinishBreaks};
ghost use Rattle.rfb_view.specs.Talking.{outs, Causes, IsOver};

use crate::greeting::version;
use crate::status::RfbStatus;
use crate::talk::{Due, Talk};
use crate::viewed::Viewed;
use gui_edge::{Failed, Sink};
use run_defs::{Line, LineFault};
use scene_script::{Cut, Cutter, parse_line};
use session_defs::RfbBad;

/// The line of the script that is read, its number, whether the session has begun, and the talk.
#[derive(Drop)]
pub struct Run {
    pub cutter: Cutter,
    pub number: u32,
    pub begun: bool,
    pub talk: Talk,
}

impl Run {
    /// A run of which nothing is read yet.
    pub fn new(talk: Talk) -> Run
        ensures talk { result.talk ≡ talk }
        ensures line { HasTaken result.cutter [] }
        ensures number { result.number ≡ 1 }
        ensures begun { result.begun ≡ false }
    {
        Run {
            cutter: Cutter::new(),
            number: 1,
            begun: false,
            talk,
        }
    }

    /// Begins the session.
    fn begin<O: Sink>(&mut self, out: &mut O) -> Result<(), Failed>
        ensures run { self.new ≡ record self.old { begun = true } }
        ensures ok { OnOk result (Appends (O.state out.old).held (O.state out.new).held version) }
        ensures err { OnErr result (AppendsPrefix (O.state out.old).held (O.state out.new).held version) }
        ensures cause { HasCause (O.state out.old).faults (O.state out.new).faults result }
    {
        self.begun = true;
        out.put(version())
    }

    /// Goes on to the next line, after one that may have to be noted.
    fn go_on(&mut self, noted: bool)
        requires { self.old.number + 1 < 2 ^ 32 }
        ensures { self.new ≡ record self.old {
          number = self.old.number + 1;
          talk = record self.old.talk { noted = self.old.talk.noted || noted };
        } }
    {
        self.number += 1;
        self.talk.noted = self.talk.noted || noted;
    }

    /// Answers the line that the cutter's last answer made whole, if it made one. The line `rfb` begins the
    /// session.
    fn take_cut<V: Viewed, O: Sink, L: Sink>(
        &mut self,
        cut: Cut,
        viewed: &mut V,
        out: &mut O,
        log: &mut L,
    ) -> Result<(), Failed>
        requires answer { cut ≡ self.old.cutter.answer }
        requires number { self.old.number + 1 < 2 ^ 32 }
        ensures ok { OnOk result (CutDone (begins self.old.cutter) (cut_says self.old.cutter)
            (V.machine viewed.old) self.old (outs (O.state out.old) (L.state log.old))
            (V.machine viewed.new) self.new (outs (O.state out.new) (L.state log.new))) }
        ensures err { OnErr result (CutBroke (begins self.old.cutter) (cut_says self.old.cutter)
            (V.machine viewed.old) self.old (outs (O.state out.old) (L.state log.old)) (outs (O.state out.new) (L.state log.new))) }
        ensures causes { Causes (outs (O.state out.old) (L.state log.old)) (outs (O.state out.new) (L.state log.new)) result }
    {
        if begins(&self.cutter, cut) {
            return self.begin(out);
        }
        let Some(said) = said(&self.cutter, cut) else {
            return Ok(());
        };
        let noted = viewed.answer(&said, self.number, log)?;
        self.go_on(noted);
        Ok(())
    }

    /// Takes a byte of the script or of the session. After a part at fault nothing is looked at.
    fn take_byte<V: Viewed, O: Sink, L: Sink>(
        &mut self,
        byte: u8,
        viewed: &mut V,
        out: &mut O,
        log: &mut L,
    ) -> Result<(), Failed>
        requires room { HasRoom self.old 1 }
        requires over { IsOver (V.machine viewed.old) self.old.talk }
        ensures reads { OnOk result (ReadsOn (V.machine viewed.old) self.old
            (outs (O.state out.old) (L.state log.old)) (V.machine viewed.new) self.new
            (outs (O.state out.new) (L.state log.new)) (byte ∷ [])) }
        ensures breaks { OnErr result (BreaksOff (V.machine viewed.old) self.old (outs (O.state out.old) (L.state log.old))
            (outs (O.state out.new) (L.state log.new)) (byte ∷ [])) }
        ensures causes { Causes (outs (O.state out.old) (L.state log.old)) (outs (O.state out.new) (L.state log.new)) result }
    {
        if !self.begun {
            let cut = self.cutter.push(byte);
            return self.take_cut(cut, viewed, out, log);
        }
        if self.talk.fault.is_some() {
            return Ok(());
        }
        self.talk.take_byte(byte, viewed, out, log)
    }

    /// Takes some bytes.
    pub fn take_piece<V: Viewed, O: Sink, L: Sink>(
        &mut self,
        piece: &[u8],
        viewed: &mut V,
        out: &mut O,
        log: &mut L,
    ) -> Result<(), Failed>
        requires room { HasRoom self.old (length piece.now) }
        requires over { IsOver (V.machine viewed.old) self.old.talk }
        ensures reads { OnOk result (ReadsOn (V.machine viewed.old) self.old
            (outs (O.state out.old) (L.state log.old)) (V.machine viewed.new) self.new
            (outs (O.state out.new) (L.state log.new)) piece.now) }
        ensures breaks { OnErr result (BreaksOff (V.machine viewed.old) self.old (outs (O.state out.old) (L.state log.old))
            (outs (O.state out.new) (L.state log.new)) piece.now) }
        ensures causes { Causes (outs (O.state out.old) (L.state log.old)) (outs (O.state out.new) (L.state log.new)) result }
    {
        for byte in piece {
            self.take_byte(*byte, viewed, out, log)?;
        }
        Ok(())
    }

    /// Takes the end of the bytes, at which what is left of a line of the script is a line too, and tells how
    /// the run ended.
    pub fn finish<V: Viewed, O: Sink, L: Sink>(
        &mut self,
        viewed: &mut V,
        out: &mut O,
        log: &mut L,
    ) -> Result<RfbStatus, Failed>
        requires number { self.old.begun ≡ false → self.old.number + 1 < 2 ^ 32 }
        ensures well { IfOk result IsEnd }
        ensures ends { IfOk result (λ status. Finishes (V.machine viewed.old) self.old
            (outs (O.state out.old) (L.state log.old)) (outs (O.state out.new) (L.state log.new)) status) }
        ensures breaks { OnErr result (FinishBreaks (V.machine viewed.old) self.old
            (outs (O.state out.old) (L.state log.old)) (outs (O.state out.new) (L.state log.new))) }
        ensures causes { Causes (outs (O.state out.old) (L.state log.old)) (outs (O.state out.new) (L.state log.new)) result }
    {
        if self.begun {
            return Ok(self.talk.status());
        }
        let cut = self.cutter.finish();
        self.take_cut(cut, viewed, out, log)?;
        Ok(RfbStatus::Bad(self.lack()))
    }

    /// What a run lacks whose bytes ended before a part of a session was whole.
    fn lack(&self) -> RfbBad
        ensures { result ≡ lack self.now.begun }
    {
        if self.begun {
            RfbBad::Cut
        } else {
            RfbBad::NoSession
        }
    }
}

/// Whether the line is the line `rfb` that the cutter's last answer made whole.
fn begins(cutter: &Cutter, cut: Cut) -> bool
    requires { cut ≡ cutter.now.answer }
    ensures { result ≡ begins cutter.now }
{
    match cut {
        Cut::Line => cutter.line() == b"rfb".as_slice(),
        Cut::More | Cut::Long => false,
    }
}

/// What the line says that the cutter's last answer made whole, if it made one.
#[tactic(auto, using(run_defs::proofs::Ranges::says_in_range))]
fn said(cutter: &Cutter, cut: Cut) -> Option<Result<Line, LineFault>>
    requires { cut ≡ cutter.now.answer }
    ensures says { option_to_list result ≡ cut_says cutter.now }
    ensures in_range { IfSome result IsInRange }
{
    match cut {
        Cut::More => None,
        Cut::Line => Some(parse_line(cutter.line())),
        Cut::Long => Some(Err(LineFault::Long)),
    }
}

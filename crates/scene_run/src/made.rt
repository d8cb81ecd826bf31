//! Runs the made script.
ghost use Rattle.std.specs.Prelude.{◌≡◌, ◌⊎◌, ◌+◌, ◌≤◌, ◌<◌, ◌^◌, ◌∷◌, ◌++◌, [], ◌||◌, length, if◌then◌else◌};
ghost use Rattle.std.specs.Io.KnownBytes.{Appends};
ghost use Rattle.std.specs.Prelude.{OnOk, OnErr, ℕ, List, decimal, nat_lt, true, None};
ghost use Rattle.std.specs.List.{All, list_all};
ghost use Rattle.arrayvec.specs.ArrayVec.{array_vec_len};
ghost use Rattle.gui_base.specs.Bounded.{bounds_of};
ghost use Rattle.gui_core.specs.Machines.{machine_of, pending_in, refresher_in, stage_of};
ghost use Rattle.gui_core.specs.Sums.{picture_sum};
ghost use Rattle.gui_edge.specs.Causes.{HasCause, Rose};
ghost use Rattle.gui_edge.specs.Panel.{PanelState, HasSizes};
ghost use Rattle.gui_edge.specs.Sink.{AppendsPrefix};
ghost use Rattle.gui_play.specs.Panels.{AgreesWith};
ghost use Rattle.run_defs.specs.Laws.{IsInRange};
ghost use Rattle.run_defs.specs.Machine.{Machine};
ghost use Rattle.run_defs.specs.Made.{made_says};
ghost use Rattle.run_defs.specs.Run.{Told};
ghost use Rattle.run_defs.specs.Script.{Said};
ghost use Rattle.scene_defs.specs.Place.{panel_of};
ghost use Rattle.scene_run.specs.Counting.{is_no_pump, making, done_in, faults_in, Counts, HasMade};
ghost use Rattle.scene_run.specs.Counting.{MakesOn};
ghost use Rattle.scene_run.specs.Effects.{output, Halted, SinceOpening};
ghost use Rattle.scene_run.specs.Headline.{MadeEnded, IfUnstarted};
ghost use Rattle.scene_run.specs.Making.{panel_alone, summary};
ghost use Rattle.scene_run.specs.Running.{IsReady, IsStill, Halts};

use crate::answer::{LineEnd, answer};
use crate::status::Status;
use arrayvec::ArrayVec;
use gui_base::{Limits, Steps};
use gui_core::Gui;
use gui_edge::text::{push_bytes, push_number};
use gui_edge::{Failed, Panel, Sink, Unheard};
use run_defs::{FrameEnd, Outcome};
use scene_script::{Line, LineFault, MadeSays};
use std::marker::Brand;
use std::sync::ledger::{Blank, Ledger};

/// The line of the log for a made script: six numbers of at most ten digits and the words fit.
type Summary = ArrayVec<u8, 128>;

/// Adds words and a number.
fn push_count(text: &mut Summary, words: &[u8], number: u32)
    requires { array_vec_len text.old + length words.now + 10 ≤ 128 }
    ensures items { text.new.items ≡ text.old.items ++ words.now ++ decimal number }
    ensures len { array_vec_len text.new ≤ array_vec_len text.old + length words.now + 10 }
{
    push_bytes(text, words);
    push_number(text, number);
}

/// How many frames were done, and how many faulted, according to the outcome of one line.
fn ends_of(outcome: Option<Outcome>) -> (u32, u32)
    ensures { result ≡ (done_in outcome, faults_in outcome) }
{
    match outcome {
        Some(Outcome::Frame(FrameEnd::Done)) => (1, 0),
        Some(Outcome::Frame(FrameEnd::Fault)) => (0, 1),
        Some(Outcome::Pump(_)) | None => (0, 0),
    }
}

/// The machine, and what is counted of the lines so far: all, those that were refused, the frames that were
/// done, and those that faulted.
#[derive(Drop)]
pub(crate) struct Making {
    pub(crate) gui: Gui,
    pub(crate) lines: u32,
    pub(crate) refused: u32,
    pub(crate) frames: u32,
    pub(crate) faults: u32,
}

impl Making {
    /// Nothing is made yet.
    fn new(gui: Gui) -> Making
        ensures { result ≡ record { gui = gui; lines = 0; refused = 0; frames = 0; faults = 0 } }
    {
        Making {
            gui,
            lines: 0,
            refused: 0,
            frames: 0,
            faults: 0,
        }
    }

    /// Counts a line.
    fn count(&mut self, end: LineEnd)
        requires lines { self.old.lines + 1 < 2 ^ 32 }
        requires refused { self.old.refused + 1 < 2 ^ 32 }
        requires frames { self.old.frames + 1 < 2 ^ 32 }
        requires faults { self.old.faults + 1 < 2 ^ 32 }
        ensures gui { self.new.gui ≡ self.old.gui }
        ensures lines { self.new.lines ≡ self.old.lines + 1 }
        ensures refused { self.new.refused ≡ self.old.refused + (if end.refused then 1 else 0) }
        ensures frames { self.new.frames ≡ self.old.frames + done_in end.outcome }
        ensures faults { self.new.faults ≡ self.old.faults + faults_in end.outcome }
    {
        let (done, faulted) = ends_of(end.outcome);
        self.lines += 1;
        self.refused += if end.refused { 1 } else { 0 };
        self.frames += done;
        self.faults += faulted;
    }

    /// Answers a line that is no pump. Nobody reads its reply.
    fn take_line<P: Panel>(
        &mut self,
        said: &Result<Line, LineFault>,
        panel: &mut P,
    ) -> Result<(), Failed>
        requires in_range { IsInRange said.now }
        requires no_pump { is_no_pump said.now ≡ true }
        requires ready { IsReady (making self.old (P.state panel.old)) 1 }
        requires refused { self.old.refused + 1 < 2 ^ 32 }
        ensures ok { OnOk result
            (MakesOn self.old self.new (P.state panel.old) (P.state panel.new) said.now) }
        ensures refused { OnOk result (self.new.refused ≤ self.old.refused + 1) }
        ensures err { OnErr result (Halts (making self.old (P.state panel.old))
            (panel_alone (P.state panel.new)) (said.now ∷ [])) }
    {
        let number = self.lines + 1;
        let frame = self.frames + self.faults + 1;
        let end = answer(&mut self.gui, said, number, frame, &mut Unheard, panel)?;
        self.count(end);
        Ok(())
    }

    /// The sum of the last picture, painted with an empty count of steps, which no clause of a run speaks of.
    fn picture_sum<B: Ledger>(&mut self, blank: Blank) -> u16
        requires name { blank.name ≡ B.name }
        requires parts { blank.parts ≡ B.parts }
        requires some { 0 < blank.parts }
        requires free { 0 < (refresher_in self.old.gui).free }
        ensures same { self.new ≡ self.old }
        ensures sum { result ≡ picture_sum (machine_of self.old.gui).scene }
    {
        let (book, all) = blank.open::<B>();
        let mut steps = Steps::new(book, all);
        self.gui.picture_sum(&mut steps)
    }

    /// What the log tells of the made script of a number, whose last picture has this sum.
    fn summary(&self, k: u16, sum: u16) -> Summary
        ensures { (lines : List Said) (ts : List Told) → Counts self.now lines ts →
            result.items ≡ summary k (length lines) ts sum }
    {
        let mut text = ArrayVec::new();
        push_count(&mut text, b"made ", u32::from(k));
        push_count(&mut text, b" lines ", self.lines);
        push_count(&mut text, b" refused ", self.refused);
        push_count(&mut text, b" frames ", self.frames);
        push_count(&mut text, b" faults ", self.faults);
        push_count(&mut text, b" sum ", u32::from(sum));
        push_bytes(&mut text, b"\n");
        text
    }

    /// How the run ended, if its lines were answered: according to what was counted of them.
    fn status(&self) -> Status
        ensures { result ≡ (if nat_lt 0 self.now.refused || nat_lt 0 self.now.faults
            then Status.Noted else Status.Done) }
    {
        if self.refused > 0 || self.faults > 0 {
            Status::Noted
        } else {
            Status::Done
        }
    }
}

/// Answers the lines that a maker gives, of which none is a pump.
fn take_lines<P: Panel>(run: &mut Making, maker: &mut MadeSays, panel: &mut P) -> Result<(), Failed>
    requires ready { IsReady (making run.old (P.state panel.old)) (length maker.old) }
    requires refused { run.old.refused + length maker.old < 2 ^ 32 }
    requires in_range { All IsInRange maker.old }
    requires no_pump { list_all is_no_pump maker.old ≡ true }
    ensures ok { OnOk result ((first : Machine) (start : PanelState) (lines : List Said) →
        HasMade first start run.old (P.state panel.old) lines →
        HasMade first start run.new (P.state panel.new) (lines ++ maker.old)) }
    ensures err { OnErr result ((first : Machine) (start : PanelState) (lines : List Said) →
        HasMade first start run.old (P.state panel.old) lines →
        Halted first (panel_alone start) (panel_alone (P.state panel.new))
        (lines ++ maker.old)) }
{
    while let Some(line) = maker.next_said() {
        run.take_line(&Ok(line), panel)?;
    }
    Ok(())
}

/// Writes the summary of lines that were answered and counted.
fn tell<L: Sink>(run: &mut Making, k: u16, log: &mut L) -> Result<(), Failed>
    requires free { 0 < (refresher_in run.old.gui).free }
    ensures same { run.new ≡ run.old }
    ensures ok { OnOk result ((lines : List Said) (ts : List Told) → Counts run.old lines ts →
        Appends (L.state log.old).held (L.state log.new).held
        (summary k (length lines) ts (picture_sum (machine_of run.old.gui).scene))) }
    ensures err { OnErr result ((lines : List Said) (ts : List Told) → Counts run.old lines ts →
        AppendsPrefix (L.state log.old).held (L.state log.new).held
        (summary k (length lines) ts (picture_sum (machine_of run.old.gui).scene))) }
    ensures cause { HasCause (L.state log.old).faults (L.state log.new).faults result }
{
    let sum = run.picture_sum::<Brand>(Blank::new(1));
    let text = run.summary(k, sum);
    log.put(text.as_slice())
}

/// Writes the summary of the made script of a number, whose lines were all answered, and tells how the run
/// ended.
fn finish<L: Sink>(run: &mut Making, k: u16, log: &mut L) -> Status
    requires free { 0 < (refresher_in run.old.gui).free }
    ensures runs { (first : Machine) (start panel : PanelState) →
        HasMade first start run.old panel (made_says k first.scene.limits) →
        MadeEnded k first (output (L.state log.old) start) (output (L.state log.new) panel) result }
    ensures started { IfUnstarted result ⊥ }
    ensures write_fault { result ≡ Status.WriteFault →
        Rose (L.state log.old).faults (L.state log.new).faults }
{
    match tell(run, k, log) {
        Ok(()) => run.status(),
        Err(Failed) => Status::WriteFault,
    }
}

/// Answers the lines of the made script of a number, none of which was answered yet, and writes its summary.
fn make_all<L: Sink, P: Panel>(
    run: &mut Making,
    maker: &mut MadeSays,
    k: u16,
    log: &mut L,
    panel: &mut P,
) -> Status
    requires script { maker.old ≡ made_says k (machine_of run.old.gui).scene.limits }
    requires begun { HasMade (machine_of run.old.gui) (P.state panel.old) run.old (P.state panel.old) [] }
    requires ready { IsReady (making run.old (P.state panel.old)) (length maker.old) }
    requires refused { run.old.refused + length maker.old < 2 ^ 32 }
    ensures runs { (start : PanelState) →
        HasMade (machine_of run.old.gui) start run.old (P.state panel.old) [] →
        MadeEnded k (machine_of run.old.gui) (output (L.state log.old) start)
        (output (L.state log.new) (P.state panel.new)) result }
    ensures started { IfUnstarted result ⊥ }
    ensures write_fault { result ≡ Status.WriteFault → Rose (L.state log.old).faults (L.state log.new).faults
        ⊎ Rose (P.state panel.old).present_faults (P.state panel.new).present_faults }
{
    match take_lines(run, maker, panel) {
        Ok(()) => finish(run, k, log),
        Err(Failed) => Status::WriteFault,
    }
}

/// Runs the made script of a number, and writes its summary. What it writes is counted from any moment
/// `before` on, since which nothing came to the panel.
pub fn run_made<L: Sink, P: Panel>(
    gui: Gui,
    k: u16,
    limits: &Limits,
    log: &mut L,
    panel: &mut P,
) -> Status
    requires least { 1 ≤ k }
    requires most { k ≤ 1000 }
    requires limits { bounds_of limits.now ≡ (machine_of gui).scene.limits }
    requires sizes { HasSizes (P.state panel.old) (machine_of gui).scene.limits }
    requires unstarted { (P.state panel.old).coming ≡ None }
    requires whole { (pending_in gui).areas ≡ panel_of (machine_of gui).scene ∷ [] }
    requires still { IsStill (refresher_in gui) }
    requires agrees { AgreesWith (stage_of gui (P.state panel.old)) (machine_of gui).scene }
    ensures runs { (before : PanelState) → SinceOpening before (P.state panel.old) →
        MadeEnded k (machine_of gui) (output (L.state log.old) before)
        (output (L.state log.new) (P.state panel.new)) result }
    ensures started { IfUnstarted result ⊥ }
    ensures write_fault { result ≡ Status.WriteFault → Rose (L.state log.old).faults (L.state log.new).faults
        ⊎ Rose (P.state panel.old).present_faults (P.state panel.new).present_faults }
{
    let mut run = Making::new(gui);
    let mut maker = MadeSays::new(k, limits);
    make_all(&mut run, &mut maker, k, log, panel)
}

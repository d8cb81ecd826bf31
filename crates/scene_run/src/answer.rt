//! Answers one line of the script.
ghost use Rattle.std.specs.Prelude.{◌≡◌, ◌<◌, ◌∷◌, [], ℕ, true, if◌then◌else◌};
ghost use Rattle.std.specs.Prelude.{IfOk, IfSome, OnOk, OnErr};
ghost use Rattle.std.specs.declared.option.Option.{Option};
ghost use Rattle.std.specs.Io.KnownBytes.{Appends};
ghost use Rattle.std.specs.Option.{option_to_list};
ghost use Rattle.scene_defs.specs.Scene.{Scene};
ghost use Rattle.run_defs.specs.Laws.{IsInRange};
ghost use Rattle.run_defs.specs.Step.{step, is_noted, IsCommand};
ghost use Rattle.run_defs.specs.Run.{moment, entry, told, machine_after, Fits, noted};
ghost use Rattle.run_defs.specs.Run.{Replied, Framed, ShowsScene, reply_line, frame_line, pump_line, log_lines};
ghost use Rattle.run_defs.specs.declared.Outcome.TheVariants.{Frame as OfFrame};
ghost use Rattle.gui_edge.specs.Causes.{HasCause};
ghost use Rattle.gui_edge.specs.Panel.{PanelState};
ghost use Rattle.gui_edge.specs.Sink.{AppendsPrefix};
ghost use Rattle.gui_damage.specs.Adding.{AddsAll};
ghost use Rattle.gui_refresh.specs.Owing.{standing_of, flight_of};
ghost use Rattle.gui_refresh.specs.Stages.{progress_of};
ghost use Rattle.gui_core.specs.Machines.{machine_of, pending_in, refresher_in, stage_of};
ghost use Rattle.gui_play.specs.Panels.{AgreesWith, CanSend, GoesOnAgreeing, Pumps, Refreshes};
ghost use Rattle.owed_defs.specs.Happenings.{debt_of};
ghost use Rattle.owed_defs.specs.Progress.{Changing};
ghost use Rattle.run_laws.specs.Accounts.{FrameCounts, LineCounts};
ghost use Rattle.run_defs.specs.Owing.{command_owes};
ghost use Rattle.run_laws.specs.Pumping.{LineFlies};
ghost use Rattle.scene_run.specs.Counting.{is_no_pump};
ghost use Rattle.scene_run.specs.Effects.{output, PanelEffects, Effects, FrameFlies};
ghost use Rattle.scene_run.specs.Effects.{LineBreaks, FrameBroke};
ghost use Rattle.scene_run.specs.Making.{is_refusal, refused_count};

use arrayvec::ArrayVec;
use gui_base::{Refusal, Steps};
use gui_core::{Gui, Pumped, Refreshed, Reply};
use gui_edge::text::{push_bytes, push_number};
use gui_edge::{Failed, Panel, Sink};
use run_defs::{FrameEnd, Outcome};
use scene_script::{Command, Line, LineFault, why};
use std::marker::Brand;
use std::sync::ledger::{Blank, Ledger};

/// A line of the log: two numbers of ten digits and the words fit.
pub type LogLine = ArrayVec<u8, 64>;

/// The line of the log for a frame.
fn frame_text(number: u32, frame: u32, end: FrameEnd) -> LogLine
    ensures { result.items ≡ frame_line number frame end }
{
    let mut text = ArrayVec::new();
    push_number(&mut text, number);
    push_bytes(&mut text, b" frame ");
    push_number(&mut text, frame);
    match end {
        FrameEnd::Done => push_bytes(&mut text, b" done\n"),
        FrameEnd::Fault => push_bytes(&mut text, b" fault\n"),
    }
    text
}

/// The line of the log for a pump.
fn pump_text(number: u32, answer: Pumped) -> LogLine
    ensures { result.items ≡ pump_line number answer }
{
    let mut text = ArrayVec::new();
    push_number(&mut text, number);
    push_bytes(&mut text, b" pump ");
    match answer {
        Pumped::Idle => push_bytes(&mut text, b"idle\n"),
        Pumped::Moved => push_bytes(&mut text, b"moved\n"),
        Pumped::Waiting => push_bytes(&mut text, b"waiting\n"),
        Pumped::Fault => push_bytes(&mut text, b"fault\n"),
    }
    text
}

/// The line of the log for a reply.
pub fn reply_text(number: u32, reply: Reply) -> LogLine
    ensures { result.items ≡ reply_line number reply }
{
    let mut text = ArrayVec::new();
    push_number(&mut text, number);
    match reply {
        Reply::Ok { .. } => push_bytes(&mut text, b" ok\n"),
        Reply::Refused(refusal) => {
            push_bytes(&mut text, b" refused ");
            push_bytes(&mut text, why(refusal).as_bytes());
            push_bytes(&mut text, b"\n");
        }
    }
    text
}

/// Whether a reply is that of a refusal, or has one to note.
pub fn is_noted(reply: Reply) -> bool
    ensures { result ≡ is_noted reply }
{
    match reply {
        Reply::Ok { noted } => noted,
        Reply::Refused(_) => true,
    }
}

/// Whether a reply is that of a refusal.
fn is_refusal(reply: Reply) -> bool
    ensures { result ≡ is_refusal reply }
{
    matches!(reply, Reply::Refused(_))
}

/// Carries out a command, which writes what its events say, and writes the reply.
pub fn make<L: Sink>(
    gui: &mut Gui,
    command: &Command,
    number: u32,
    log: &mut L,
) -> Result<Reply, Failed>
    requires { IsCommand command.now }
    ensures machine { machine_of gui.new ≡ (step (machine_of gui.old) command.now).machine }
    ensures reply { IfOk result (λ reply. reply ≡ (step (machine_of gui.old) command.now).reply) }
    ensures ok { OnOk result (Appends (L.state log.old).held (L.state log.new).held
        (log_lines (Replied number (step (machine_of gui.old) command.now).lines
        (step (machine_of gui.old) command.now).reply))) }
    ensures err { OnErr result (AppendsPrefix (L.state log.old).held (L.state log.new).held
        (log_lines (Replied number (step (machine_of gui.old) command.now).lines
        (step (machine_of gui.old) command.now).reply))) }
    ensures cause { HasCause (L.state log.old).faults (L.state log.new).faults result }
    ensures damage { AddsAll (pending_in gui.old) (pending_in gui.new)
        (command_owes (machine_of gui.old) command.now) }
    ensures agrees { GoesOnAgreeing (pending_in gui.old) (pending_in gui.new) (machine_of gui.old).scene
        (machine_of gui.new).scene }
    ensures refresher { refresher_in gui.new ≡ refresher_in gui.old }
    ensures progress { (panel : PanelState) →
        Changing (debt_of (command_owes (machine_of gui.old) command.now))
        (progress_of (stage_of gui.old panel)) (progress_of (stage_of gui.new panel)) }
{
    let reply = gui.apply(command, log)?;
    log.put(reply_text(number, reply).as_slice())?;
    Ok(reply)
}

/// Sends what is pending to the panel with an empty count of steps, which no clause of a run speaks of.
pub fn refresh_counted<P: Panel, B: Ledger>(gui: &mut Gui, panel: &mut P, blank: Blank) -> Refreshed
    requires name { blank.name ≡ B.name }
    requires parts { blank.parts ≡ B.parts }
    requires some { 0 < blank.parts }
    requires can { CanSend (stage_of gui.old (P.state panel.old)) (machine_of gui.old).scene }
    ensures machine { machine_of gui.new ≡ machine_of gui.old }
    ensures refreshes { Refreshes (stage_of gui.old (P.state panel.old))
        (stage_of gui.new (P.state panel.new)) (machine_of gui.old).scene result }
{
    let (book, all) = blank.open::<B>();
    let mut steps = Steps::new(book, all);
    gui.refresh(panel, &mut steps)
}

/// Goes one step on to bring the picture to the panel, with such a count too.
fn pump_counted<P: Panel, B: Ledger>(gui: &mut Gui, panel: &mut P, blank: Blank) -> Pumped
    requires name { blank.name ≡ B.name }
    requires parts { blank.parts ≡ B.parts }
    requires some { 0 < blank.parts }
    requires can { CanSend (stage_of gui.old (P.state panel.old)) (machine_of gui.old).scene }
    ensures machine { machine_of gui.new ≡ machine_of gui.old }
    ensures pumps { Pumps (stage_of gui.old (P.state panel.old)) (stage_of gui.new (P.state panel.new))
        (machine_of gui.old).scene result }
{
    let (book, all) = blank.open::<B>();
    let mut steps = Steps::new(book, all);
    gui.pump(panel, &mut steps)
}

/// Sends what is pending of the picture, and presents the frame if all of it arrived.
fn show<P: Panel>(gui: &mut Gui, panel: &mut P) -> Result<FrameEnd, Failed>
    requires can { CanSend (stage_of gui.old (P.state panel.old)) (machine_of gui.old).scene }
    requires agrees { AgreesWith (stage_of gui.old (P.state panel.old)) (machine_of gui.old).scene }
    ensures machine { machine_of gui.new ≡ machine_of gui.old }
    ensures can { CanSend (stage_of gui.new (P.state panel.new)) (machine_of gui.old).scene }
    ensures ok { IfOk result (λ end. (number frame : ℕ) (seen : Option Scene) →
        PanelEffects (P.state panel.old) (P.state panel.new) seen
        (Framed number frame (machine_of gui.old).scene end ∷ [])) }
    ensures counts { IfOk result (λ end. FrameCounts (machine_of gui.old).scene.limits (OfFrame end ∷ [])
        (standing_of (stage_of gui.old (P.state panel.old)))
        (standing_of (stage_of gui.new (P.state panel.new)))) }
    ensures flies { IfOk result (λ end. FrameFlies (machine_of gui.old) end
        (flight_of (stage_of gui.old (P.state panel.old)))
        (flight_of (stage_of gui.new (P.state panel.new)))) }
    ensures agrees { IfOk result (λ end.
        AgreesWith (stage_of gui.new (P.state panel.new)) (machine_of gui.old).scene) }
    ensures free { IfOk result (λ end. 0 < (refresher_in gui.new).free) }
    ensures err { OnErr result
        (FrameBroke (P.state panel.old) (P.state panel.new) (machine_of gui.old).scene) }
    ensures err_counts { OnErr result (FrameCounts (machine_of gui.old).scene.limits []
        (standing_of (stage_of gui.old (P.state panel.old)))
        (standing_of (stage_of gui.new (P.state panel.new)))) }
{
    match refresh_counted::<P, Brand>(gui, panel, Blank::new(1)) {
        Refreshed::Done => {
            panel.present()?;
            Ok(FrameEnd::Done)
        }
        Refreshed::Fault => Ok(FrameEnd::Fault),
    }
}

/// What became of a line: the outcome of a frame or a pump, whether the line was refused, and whether it or
/// an action was refused or the frame faulted.
#[derive(Clone, Copy)]
pub struct LineEnd {
    pub outcome: Option<Outcome>,
    pub refused: bool,
    pub noted: bool,
}

/// Answers a line: what the log and the panel get.
pub fn answer<L: Sink, P: Panel>(
    gui: &mut Gui,
    said: &Result<Line, LineFault>,
    number: u32,
    frame: u32,
    log: &mut L,
    panel: &mut P,
) -> Result<LineEnd, Failed>
    requires can { CanSend (stage_of gui.old (P.state panel.old)) (machine_of gui.old).scene }
    requires agrees { AgreesWith (stage_of gui.old (P.state panel.old)) (machine_of gui.old).scene }
    requires in_range { IsInRange said.now }
    ensures machine { machine_of gui.new ≡ machine_after (machine_of gui.old) said.now }
    ensures can { CanSend (stage_of gui.new (P.state panel.new)) (machine_of gui.old).scene }
    ensures ok { IfOk result (λ end. (seen : Option Scene) → IfSome seen (ShowsScene (P.state panel.old).shows) →
        Effects (output (L.state log.old) (P.state panel.old)) (output (L.state log.new) (P.state panel.new))
        seen (told (entry (moment (machine_of gui.old) number frame) said.now ∷ [])
        (option_to_list end.outcome))) }
    ensures fits { IfOk result (λ end. Fits
        (entry (moment (machine_of gui.old) number frame) said.now ∷ []) (option_to_list end.outcome)) }
    ensures noted { IfOk result (λ end. end.noted ≡ noted
        (told (entry (moment (machine_of gui.old) number frame) said.now ∷ [])
        (option_to_list end.outcome))) }
    ensures refused { IfOk result (λ end. refused_count
        (told (entry (moment (machine_of gui.old) number frame) said.now ∷ [])
        (option_to_list end.outcome)) ≡ (if end.refused then 1 else 0)) }
    ensures counts { IfOk result (λ end. LineCounts (machine_of gui.old).scene.limits (machine_of gui.old)
        said.now (option_to_list end.outcome) (standing_of (stage_of gui.old (P.state panel.old)))
        (standing_of (stage_of gui.new (P.state panel.new)))) }
    ensures flies { IfOk result (λ end. LineFlies (machine_of gui.old) said.now
        (option_to_list end.outcome) (flight_of (stage_of gui.old (P.state panel.old)))
        (flight_of (stage_of gui.new (P.state panel.new)))) }
    ensures agrees { IfOk result (λ end.
        AgreesWith (stage_of gui.new (P.state panel.new)) (machine_of gui.new).scene) }
    ensures free { IfOk result (λ end. is_no_pump said.now ≡ true →
        0 < (refresher_in gui.old).free → 0 < (refresher_in gui.new).free) }
    ensures err { OnErr result (LineBreaks (machine_of gui.old) number frame said.now
        (output (L.state log.old) (P.state panel.old)) (output (L.state log.new) (P.state panel.new))
        (stage_of gui.old (P.state panel.old)) (stage_of gui.new (P.state panel.new))) }
{
    let mut end = LineEnd {
        outcome: None,
        refused: false,
        noted: false,
    };
    match said {
        Ok(line) => match line {
            Line::Blank => Ok(end),
            Line::Make(command) => {
                let reply = make(gui, command, number, log)?;
                end.refused = is_refusal(reply);
                end.noted = is_noted(reply);
                Ok(end)
            }
            Line::Frame => {
                let shown = show(gui, panel)?;
                log.put(frame_text(number, frame, shown).as_slice())?;
                end.outcome = Some(Outcome::Frame(shown));
                end.noted = shown == FrameEnd::Fault;
                Ok(end)
            }
            Line::Pump => {
                let pumped = pump_counted::<P, Brand>(gui, panel, Blank::new(1));
                log.put(pump_text(number, pumped).as_slice())?;
                end.outcome = Some(Outcome::Pump(pumped));
                Ok(end)
            }
        },
        Err(fault) => {
            let reply = Reply::Refused(Refusal::from(*fault));
            log.put(reply_text(number, reply).as_slice())?;
            end.refused = true;
            end.noted = true;
            Ok(end)
        }
    }
}

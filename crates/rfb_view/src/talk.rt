//! The talk with a viewer, from its version on.
ghost use Rattle.std.specs.Prelude.{◌≡◌, ◌+◌, ◌^◌, ◌<◌, ◌≤◌, ◌∷◌, ◌++◌, ◌||◌, ◌&&◌, [], List, ℕ, None, Some, false, true};
ghost use Rattle.std.specs.Prelude.{OnOk, OnErr};
ghost use Rattle.std.specs.Io.KnownBytes.{Appends};
ghost use Rattle.gui_base.specs.Corners.{rect_of};
ghost use Rattle.gui_edge.specs.Causes.{HasCause};
ghost use Rattle.gui_edge.specs.Sink.{AppendsPrefix};
ghost use Rattle.run_defs.specs.Step.{step, is_noted, IsCommand};
ghost use Rattle.session_defs.specs.Messages.{Asks, Inputs};
ghost use Rattle.session_defs.specs.Sessions.{says, part_due, is_saying, is_none_left};
ghost use Rattle.rfb_view.specs.Endings.{stopped, end_of, IsEnd};
ghost use Rattle.rfb_view.specs.Hearing.{HasHeard};
ghost use Rattle.rfb_view.specs.Messages.{meaning_of, IsSayable};
ghost use Rattle.rfb_view.specs.Talking.{outs, Causes, count_due, due_of, bare, IsWhole, Broke, IsOver, Stays};
ghost use Rattle.rfb_view.specs.Talking.{looks, Hears, Goes, Takes, is_part};

use crate::greeting::{chosen, offer, screen, turned_down};
use crate::hearing::Hearing;
use crate::messages::Message;
use crate::sight::Sight;
use crate::status::RfbStatus;
use crate::viewed::Viewed;
use gui_base::Area;
use gui_edge::screen::panel_area;
use gui_edge::{Failed, Sink};
use run_defs::Command;
use session_defs::RfbBad;

/// What is due from a viewer.
#[derive(Clone, Copy, Debug, PartialEq, Eq)]
pub enum Due {
    Version,
    Security,
    Sharing,
    Saying,
}

impl Due {
    /// How many parts came before; all messages count as the fourth.
    fn count(self) -> u8
        ensures { result ≡ count_due self }
    {
        match self {
            Due::Version => 0,
            Due::Security => 1,
            Due::Sharing => 2,
            Due::Saying => 3,
        }
    }
}

/// How the talk with a viewer stands.
#[derive(Drop)]
pub struct Talk {
    /// How many milliseconds pass at each request.
    pub ms: u16,
    /// The sizes of the panel.
    pub width: u16,
    pub height: u16,
    /// What the viewer was told.
    pub sight: Sight,
    /// What is heard of the part that is due.
    pub hearing: Hearing,
    pub due: Due,
    /// Whether a line of the script or an action was refused.
    pub noted: bool,
    /// Why the talk is over.
    pub fault: Option<RfbBad>,
}

impl Talk {
    /// A talk that has not begun, with what counts as told to the viewer.
    pub fn new(ms: u16, width: u16, height: u16, sight: Sight) -> Talk
        ensures ms { result.ms ≡ ms }
        ensures sizes { (result.width ≡ width) × (result.height ≡ height) }
        ensures sight { result.sight ≡ sight }
        ensures heard { HasHeard result.hearing [] }
        ensures due { result.due ≡ Due.Version }
        ensures noted { result.noted ≡ false }
        ensures fault { result.fault ≡ None }
    {
        Talk {
            ms,
            width,
            height,
            sight,
            hearing: Hearing::new(),
            due: Due::Version,
            noted: false,
            fault: None,
        }
    }

    /// Greets the viewer, and goes on to what is due then.
    fn greet<O: Sink>(&mut self, due: Due, bytes: &[u8], out: &mut O) -> Result<(), Failed>
        ensures talk { self.new ≡ record self.old { due = due } }
        ensures ok { OnOk result (Appends (O.state out.old).held (O.state out.new).held bytes.now) }
        ensures err { OnErr result (AppendsPrefix (O.state out.old).held (O.state out.new).held bytes.now) }
        ensures cause { HasCause (O.state out.old).faults (O.state out.new).faults result }
    {
        self.due = due;
        out.put(bytes)
    }

    /// Answers the open request from the picture.
    fn look<V: Viewed, O: Sink>(
        &mut self,
        changes: bool,
        viewed: &mut V,
        out: &mut O,
    ) -> Result<(), Failed>
        requires over { IsOver (V.machine viewed.old) self.old }
        ensures machine { V.machine viewed.new ≡ V.machine viewed.old }
        ensures talk { self.new ≡ record self.old { sight = self.new.sight } }
        ensures sight { OnOk result (self.new.sight ≡ (looks (V.machine viewed.old) changes self.old.sight).sight) }
        ensures over { OnOk result (IsOver (V.machine viewed.new) self.new) }
        ensures ok { OnOk result (Appends (O.state out.old).held (O.state out.new).held
            (looks (V.machine viewed.old) changes self.old.sight).bytes) }
        ensures err { OnErr result (AppendsPrefix (O.state out.old).held (O.state out.new).held
            (looks (V.machine viewed.old) changes self.old.sight).bytes) }
        ensures cause { HasCause (O.state out.old).faults (O.state out.new).faults result }
    {
        viewed.paint();
        self.sight
            .answer(changes, self.width, self.height, viewed.pixels(), out)
    }

    /// Hands an input to the machine.
    fn input<V: Viewed, L: Sink>(
        &mut self,
        command: &Command,
        viewed: &mut V,
        log: &mut L,
    ) -> Result<(), Failed>
        requires command { IsCommand command.now }
        requires over { IsOver (V.machine viewed.old) self.old }
        ensures machine { V.machine viewed.new ≡ (step (V.machine viewed.old) command.now).machine }
        ensures talk { OnOk result (self.new ≡ record self.old {
          noted = self.old.noted || is_noted (step (V.machine viewed.old) command.now).reply;
        }) }
        ensures over { OnOk result (IsOver (V.machine viewed.new) self.new) }
        ensures ok { OnOk result (Appends (L.state log.old).held (L.state log.new).held
            (step (V.machine viewed.old) command.now).lines) }
        ensures err { OnErr result (AppendsPrefix (L.state log.old).held (L.state log.new).held
            (step (V.machine viewed.old) command.now).lines) }
        ensures cause { HasCause (L.state log.old).faults (L.state log.new).faults result }
    {
        let noted = viewed.hear(command, log)?;
        self.noted = self.noted || noted;
        Ok(())
    }

    /// Hears a request: time passes, and then it is answered.
    fn request<V: Viewed, O: Sink, L: Sink>(
        &mut self,
        changes: bool,
        area: Area,
        viewed: &mut V,
        out: &mut O,
        log: &mut L,
    ) -> Result<(), Failed>
        requires over { IsOver (V.machine viewed.old) self.old }
        ensures talks { OnOk result (Hears (outs (O.state out.old) (L.state log.old)) (outs (O.state out.new) (L.state log.new))
            (V.machine viewed.old) self.old (V.machine viewed.new) self.new (Asks changes (rect_of area))) }
        ensures broke { OnErr result (Broke (outs (O.state out.old) (L.state log.old)) (outs (O.state out.new) (L.state log.new))
            (says self.old.ms (Asks changes (rect_of area)) (bare (V.machine viewed.old) self.old))) }
        ensures causes { Causes (outs (O.state out.old) (L.state log.old)) (outs (O.state out.new) (L.state log.new)) result }
    {
        self.input(&Command::Tick(self.ms), viewed, log)?;
        self.sight
            .ask(area.meet(panel_area(self.width, self.height)));
        self.look(changes, viewed, out)
    }

    /// Hears an input, after which an open request may be answered.
    fn touch<V: Viewed, O: Sink, L: Sink>(
        &mut self,
        command: &Command,
        viewed: &mut V,
        out: &mut O,
        log: &mut L,
    ) -> Result<(), Failed>
        requires command { IsCommand command.now }
        requires over { IsOver (V.machine viewed.old) self.old }
        ensures talks { OnOk result (Hears (outs (O.state out.old) (L.state log.old)) (outs (O.state out.new) (L.state log.new))
            (V.machine viewed.old) self.old (V.machine viewed.new) self.new (Inputs (Some command.now))) }
        ensures broke { OnErr result (Broke (outs (O.state out.old) (L.state log.old)) (outs (O.state out.new) (L.state log.new))
            (says self.old.ms (Inputs (Some command.now)) (bare (V.machine viewed.old) self.old))) }
        ensures causes { Causes (outs (O.state out.old) (L.state log.old)) (outs (O.state out.new) (L.state log.new)) result }
    {
        self.input(command, viewed, log)?;
        self.look(true, viewed, out)
    }

    /// Hears a message.
    fn hear<V: Viewed, O: Sink, L: Sink>(
        &mut self,
        message: Message,
        viewed: &mut V,
        out: &mut O,
        log: &mut L,
    ) -> Result<(), Failed>
        requires sayable { IsSayable message }
        requires over { IsOver (V.machine viewed.old) self.old }
        ensures talks { OnOk result (Hears (outs (O.state out.old) (L.state log.old)) (outs (O.state out.new) (L.state log.new))
            (V.machine viewed.old) self.old (V.machine viewed.new) self.new (meaning_of message)) }
        ensures broke { OnErr result (Broke (outs (O.state out.old) (L.state log.old)) (outs (O.state out.new) (L.state log.new))
            (says self.old.ms (meaning_of message) (bare (V.machine viewed.old) self.old))) }
        ensures causes { Causes (outs (O.state out.old) (L.state log.old)) (outs (O.state out.new) (L.state log.new)) result }
    {
        match message {
            Message::Wants(format) => {
                self.sight.set_format(format);
                Ok(())
            }
            Message::Passes => Ok(()),
            Message::Asks { changes, area } => self.request(changes, area, viewed, out, log),
            Message::Inputs(Some(command)) => self.touch(&command, viewed, out, log),
            Message::Inputs(None) => self.look(true, viewed, out),
            Message::Errs(why) => {
                self.fault = Some(why);
                Ok(())
            }
        }
    }

    /// Answers a part that is whole.
    fn answer_part<V: Viewed, O: Sink, L: Sink>(
        &mut self,
        viewed: &mut V,
        out: &mut O,
        log: &mut L,
    ) -> Result<(), Failed>
        requires whole { IsWhole self.old.due self.old.hearing.count }
        requires over { IsOver (V.machine viewed.old) self.old }
        ensures over { OnOk result (IsOver (V.machine viewed.new) self.new) }
        ensures stays { OnOk result (Stays self.old self.new) }
        ensures talks { OnOk result ((heard : List ℕ) → HasHeard self.old.hearing heard →
            Goes (outs (O.state out.old) (L.state log.old)) (outs (O.state out.new) (L.state log.new))
            self.old (V.machine viewed.new) self.new
            (part_due self.old.ms (due_of self.old.due) heard (bare (V.machine viewed.old) self.old))) }
        ensures broke { OnErr result ((heard : List ℕ) → HasHeard self.old.hearing heard →
            Broke (outs (O.state out.old) (L.state log.old)) (outs (O.state out.new) (L.state log.new))
            (part_due self.old.ms (due_of self.old.due) heard (bare (V.machine viewed.old) self.old))) }
        ensures causes { Causes (outs (O.state out.old) (L.state log.old)) (outs (O.state out.new) (L.state log.new)) result }
    {
        match self.due {
            Due::Version => {
                if self.hearing.is_version() {
                    self.greet(Due::Security, offer(), out)
                } else {
                    self.fault = Some(RfbBad::Version);
                    Ok(())
                }
            }
            Due::Security => {
                if self.hearing.is_choice() {
                    self.greet(Due::Sharing, chosen(), out)
                } else {
                    self.fault = Some(RfbBad::Security);
                    out.put(turned_down())
                }
            }
            Due::Sharing => {
                let bytes = screen(self.width, self.height);
                self.greet(Due::Saying, bytes.as_slice(), out)
            }
            Due::Saying => {
                let message = self.hearing.message();
                self.hear(message, viewed, out, log)
            }
        }
    }

    /// Takes a byte that the viewer sends.
    pub fn take_byte<V: Viewed, O: Sink, L: Sink>(
        &mut self,
        byte: u8,
        viewed: &mut V,
        out: &mut O,
        log: &mut L,
    ) -> Result<(), Failed>
        requires room { self.old.hearing.count + 1 < 2 ^ 64 }
        requires over { IsOver (V.machine viewed.old) self.old }
        ensures over { OnOk result (IsOver (V.machine viewed.new) self.new) }
        ensures stays { OnOk result (Stays self.old self.new) }
        ensures takes { OnOk result ((heard : List ℕ) → HasHeard self.old.hearing heard →
            Takes (is_part self.old (heard ++ byte ∷ [])) (heard ++ byte ∷ [])
            (outs (O.state out.old) (L.state log.old)) (outs (O.state out.new) (L.state log.new))
            (V.machine viewed.old) self.old (V.machine viewed.new) self.new) }
        ensures room { OnOk result (self.new.hearing.count ≤ self.old.hearing.count + 1) }
        ensures broke { OnErr result ((heard : List ℕ) → HasHeard self.old.hearing heard →
            (is_part self.old (heard ++ byte ∷ []) ≡ true)
            × Broke (outs (O.state out.old) (L.state log.old)) (outs (O.state out.new) (L.state log.new))
            (part_due self.old.ms (due_of self.old.due) (heard ++ byte ∷ []) (bare (V.machine viewed.old) self.old))) }
        ensures causes { Causes (outs (O.state out.old) (L.state log.old)) (outs (O.state out.new) (L.state log.new)) result }
    {
        if !self.hearing.push(byte, self.due.count()) {
            return Ok(());
        }
        self.answer_part(viewed, out, log)?;
        self.hearing = Hearing::new();
        Ok(())
    }

    /// How the run ended whose bytes were read to their end.
    pub fn status(&self) -> RfbStatus
        ensures well { IsEnd result }
        ensures ends { (heard : List ℕ) → HasHeard self.now.hearing heard → result ≡ stopped (end_of self.now heard) }
    {
        if !self.is_between() {
            RfbStatus::Bad(RfbBad::Cut)
        } else if self.noted {
            RfbStatus::Noted
        } else {
            RfbStatus::Done
        }
    }

    /// Whether a message is due of which nothing is heard.
    fn is_between(&self) -> bool
        ensures { (heard : List ℕ) → HasHeard self.now.hearing heard →
            result ≡ (is_saying (due_of self.now.due) && is_none_left heard) }
    {
        self.due == Due::Saying && self.hearing.is_new()
    }
}

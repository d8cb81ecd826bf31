//! The machine with a panel in memory, as what a viewer looks at.
ghost use Rattle.std.specs.Prelude.{◌≡◌, [], ◌∷◌, true, None, IfOk, OnOk, OnErr};
ghost use Rattle.std.specs.Io.KnownBytes.{Appends};
ghost use Rattle.gui_base.specs.Bounded.{bounds_of};
ghost use Rattle.gui_edge.specs.Causes.{HasCause};
ghost use Rattle.gui_edge.specs.Panel.{HasSizes};
ghost use Rattle.gui_edge.specs.Sink.{AppendsPrefix};
ghost use Rattle.run_defs.specs.Machine.{first_machine};
ghost use Rattle.run_defs.specs.Run.{Replied, log_text};
ghost use Rattle.run_defs.specs.Why.{refusal_of};
ghost use Rattle.run_defs.specs.declared.Reply.TheVariants.{Refused};
ghost use Rattle.rfb_view.specs.ViewPanel.{view_state};
ghost use Rattle.scene_rfb.specs.Screens.{IsShown};

use gui_base::{Limits, NoMemory, Refusal, Rgb565};
use gui_core::{Gui, Reply};
use gui_edge::{Failed, Panel, Sink};
use rfb_view::{ViewPanel, Viewed};
use run_defs::{Command, Line, LineFault};
use scene_run::{is_noted, make, refresh_counted, reply_text};
use std::alloc::Global;
use std::marker::Brand;
use std::sync::ledger::Blank;

/// A machine, and a panel in memory that gets its picture.
#[derive(Drop)]
pub struct Screen {
    gui: Gui,
    panel: ViewPanel,
    ghost shown: { IsShown gui panel },
}

/// A panel of the sizes and the blocks that these limits have.
fn opened_panel(alloc: Global, limits: &Limits) -> Result<ViewPanel, NoMemory>
    ensures sizes { IfOk result (λ panel. HasSizes (view_state panel) (bounds_of limits.now)) }
    ensures still { IfOk result (λ panel. panel.coming ≡ None) }
{
    let mut panel = ViewPanel::new();
    let limit = limits.width * limits.lines;
    match panel.open(
        alloc,
        limits.width as u16,
        limits.height as u16,
        limit,
        limits.block,
    ) {
        Ok(()) => Ok(panel),
        Err(_) => Err(NoMemory),
    }
}

impl Screen {
    /// A machine with these limits, and a panel of its sizes. It takes all the memory that both will need.
    pub fn open(alloc: Global, limits: &Limits) -> Result<Screen, NoMemory>
        ensures { IfOk result (λ screen. ⟦<Screen as Viewed>⟧.machine screen ≡ first_machine (bounds_of limits.now)) }
    {
        // The machine comes last, since a way out on which it is let go is dear to prove.
        let panel = opened_panel(alloc, limits)?;
        let gui = Gui::open(alloc, limits)?;
        Ok(Screen { gui, panel })
    }
}

/// Refuses a line of the script, which is noted. If the log fails, it holds a prefix of the reply.
fn refuse<L: Sink>(fault: LineFault, number: u32, log: &mut L) -> Result<bool, Failed>
    ensures noted { IfOk result (λ n. n ≡ true) }
    ensures ok { OnOk result (Appends (L.state log.old).held (L.state log.new).held
        (log_text (Replied number [] (Refused (refusal_of fault)) ∷ []))) }
    ensures err { OnErr result (AppendsPrefix (L.state log.old).held (L.state log.new).held
        (log_text (Replied number [] (Refused (refusal_of fault)) ∷ []))) }
    ensures cause { HasCause (L.state log.old).faults (L.state log.new).faults result }
{
    let reply = Reply::Refused(Refusal::from(fault));
    log.put(reply_text(number, reply).as_slice())?;
    Ok(true)
}

impl Viewed for Screen {
    ghost use Rattle.gui_core.specs.Machines.{machine_of};

    ghost machine = { λ s. machine_of s.gui };

    ghost painted = { λ s. s.panel.pixels };

    /// Answers a line of the script.
    #[tactic(auto, using(crate::proofs::Shown::shown_after))]
    fn answer<L: Sink>(
        &mut self,
        said: &Result<Line, LineFault>,
        number: u32,
        log: &mut L,
    ) -> Result<bool, Failed> {
        match said {
            Ok(Line::Blank) => Ok(false),
            Ok(Line::Make(command)) => {
                let reply = make(&mut self.gui, command, number, log)?;
                Ok(is_noted(reply))
            }
            Ok(Line::Frame | Line::Pump) => refuse(LineFault::Syntax, number, log),
            Err(fault) => refuse(*fault, number, log),
        }
    }

    /// Carries out an input.
    #[tactic(auto, using(crate::proofs::Shown::shown_after))]
    fn hear<L: Sink>(&mut self, command: &Command, log: &mut L) -> Result<bool, Failed> {
        let reply = self.gui.apply(command, log)?;
        Ok(is_noted(reply))
    }

    /// Brings what changed of the picture to the panel.
    #[tactic(auto, using(crate::proofs::Shown::shown_refresh, crate::proofs::Shown::shows_picture))]
    fn paint(&mut self) {
        let _ = refresh_counted::<ViewPanel, Brand>(&mut self.gui, &mut self.panel, Blank::new(1));
    }

    /// The colours of the panel.
    fn pixels(&self) -> &[Rgb565] {
        self.panel.pixels()
    }
}

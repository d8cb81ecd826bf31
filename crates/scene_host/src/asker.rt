//! Hears the questions of a script, and has them answered.
ghost use Rattle.std.specs.Prelude.{◌≡◌, ◌≤◌, [], true, false, is_some, option_map};
ghost use Rattle.gui_core.specs.Machines.{machine_of, pending_in};
ghost use Rattle.gui_damage.specs.Pending.{total};
ghost use Rattle.scene_ask.specs.Asking.{most_pending};
ghost use Rattle.scene_script.specs.Cutting.{HasTaken, pushed};
ghost use Rattle.scene_host.specs.Answering.{answering, cut_asks, reply_to, Adds};

use gui_core::Gui;
use gui_edge::{Failed, Sink};
use scene_ask::ask;
use scene_script::questions::{asked_in, read_question};
use scene_script::{Cut, Cutter};

/// The line that is read, and whether each answer was written. Once a write failed nothing is written, so that
/// what stands there is a prefix of all answers.
#[derive(Drop)]
pub(crate) struct Asker {
    cutter: Cutter,
    answered: bool,
}

impl Asker {
    /// Nothing is heard yet.
    pub(crate) fn new() -> Asker
        ensures line { HasTaken result.cutter [] }
        ensures answered { result.answered ≡ true }
    {
        Asker {
            cutter: Cutter::new(),
            answered: true,
        }
    }

    /// Whether each answer was written.
    pub(crate) fn has_answered(&self) -> bool
        ensures { result ≡ self.now.answered }
    {
        self.answered
    }

    /// Hears a byte of the script before the machine takes it. If it ends a line that asks something, that is
    /// answered, by the number of the line.
    #[tactic(auto, using(crate::proofs::Adding::adds_none, crate::proofs::Adding::adds_still, crate::proofs::Adding::adds_whole, crate::proofs::Adding::adds_part, crate::proofs::Adding::not_last))]
    pub(crate) fn hear<A: Sink>(&mut self, byte: u8, gui: &Gui, number: u32, answers: &mut A)
        ensures line { self.new.cutter ≡ pushed self.old.cutter byte }
        ensures adds { Adds (answering self.old (A.state answers.old)) (answering self.new (A.state answers.new))
            (reply_to number (machine_of gui.now) (total (pending_in gui.now).areas) (cut_asks self.new.cutter)) }
        ensures few { self.old.answered ≡ true → is_some (cut_asks self.new.cutter) ≡ true →
            total (pending_in gui.now).areas ≤ most_pending (machine_of gui.now) }
    {
        let cut = self.cutter.push(byte);
        if !self.answered {
            return;
        }
        let Some(words) = asked(&self.cutter, cut) else {
            return;
        };
        match ask(gui, read_question(words), number, answers) {
            Ok(()) => {}
            Err(Failed) => self.answered = false,
        }
    }
}

/// What the line asks that the cutter's last answer made whole, if it made one.
fn asked(cutter: &Cutter, cut: Cut) -> Option<&[u8]>
    requires answer { cut ≡ cutter.now.answer }
    requires ended { cutter.now.last ≡ false }
    ensures { option_map (λ words. words.now) result ≡ cut_asks cutter.now }
{
    match cut {
        Cut::More => None,
        Cut::Line => asked_in(cutter.line()),
        Cut::Long => None,
    }
}

//! Answers which children an object has.
ghost use Rattle.std.specs.Prelude.{◌≡◌, ◌≤◌, ◌++◌, Some, OnOk, OnErr, decimal, length};
ghost use Rattle.std.specs.Io.KnownBytes.{Appends};
ghost use Rattle.arrayvec.specs.ArrayVec.{array_vec_len};
ghost use Rattle.gui_core.specs.Machines.{machine_of, pending_in};
ghost use Rattle.gui_damage.specs.Pending.{total};
ghost use Rattle.gui_edge.specs.Causes.{HasCause};
ghost use Rattle.gui_edge.specs.Sink.{AppendsPrefix};
ghost use Rattle.scene_ask.specs.Asking.{count, answer_line};

use crate::adding::{AnswerLine, push_count};
use arrayvec::ArrayVec;
use gui_base::Handle;
use gui_core::Gui;
use gui_edge::text::{push_bytes, push_number};
use gui_edge::{Failed, Sink};
use scene_script::Question;

/// Answers which children an object has. Their names may be too many for a text of a fixed size, so that each of them
/// is put by itself.
pub(crate) fn put_children<A: Sink>(
    gui: &Gui,
    h: Handle,
    number: u32,
    answers: &mut A,
) -> Result<(), Failed>
    ensures ok { OnOk result (Appends (A.state answers.old).held (A.state answers.new).held
        (answer_line number (machine_of gui.now) (total (pending_in gui.now).areas) (Some (Question.Children h)))) }
    ensures err { OnErr result (AppendsPrefix (A.state answers.old).held (A.state answers.new).held
        (answer_line number (machine_of gui.now) (total (pending_in gui.now).areas) (Some (Question.Children h)))) }
    ensures cause { HasCause (A.state answers.old).faults (A.state answers.new).faults result }
{
    let tree = gui.store().tree();
    if !tree.has(h) {
        return answers.put(numbered(number, b" children none\n").as_slice());
    }
    answers.put(numbered(number, b" children").as_slice())?;
    for child in tree.children(h) {
        answers.put(name_text(child).as_slice())?;
    }
    answers.put(b"\n")
}

/// The number of a line, and words.
fn numbered(number: u32, words: &[u8]) -> AnswerLine
    requires { length words.now ≤ 100 }
    ensures { result.items ≡ decimal number ++ words.now }
{
    let mut text = ArrayVec::new();
    push_number(&mut text, number);
    push_bytes(&mut text, words);
    text
}

/// The name of an object after a space.
fn name_text(h: Handle) -> AnswerLine
    ensures { result.items ≡ count h.0 }
{
    let mut text = ArrayVec::new();
    push_count(&mut text, u64::from(h.0));
    text
}

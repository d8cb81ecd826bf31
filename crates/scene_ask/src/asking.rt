//! Answers questions.
ghost use Rattle.std.specs.Prelude.{◌≡◌, ◌+◌, ◌≤◌, ◌++◌, ◌∷◌, OnOk, OnErr, codes, option_map, if◌then◌else◌};
ghost use Rattle.std.specs.Prelude.{Some, true};
ghost use Rattle.std.specs.Io.KnownBytes.{Appends};
ghost use Rattle.arrayvec.specs.ArrayVec.{array_vec_len};
ghost use Rattle.gui_base.specs.Corners.{rect_of};
ghost use Rattle.gui_core.specs.Machines.{machine_of, pending_in};
ghost use Rattle.gui_damage.specs.Pending.{total};
ghost use Rattle.gui_edge.specs.Causes.{HasCause};
ghost use Rattle.gui_edge.specs.Sink.{AppendsPrefix};
ghost use Rattle.gui_boxes.specs.Scrolls.{span_from};
ghost use Rattle.line_texts.specs.Quoting.{quoted};
ghost use Rattle.scene_defs.specs.Edits.{text_at};
ghost use Rattle.scene_defs.specs.Scene.{is_there};
ghost use Rattle.scene_defs.specs.Visible.{some_area};
ghost use Rattle.scene_ask.specs.Asking.{fact_says, answer_words, asked_words, answer_line, is_short};
ghost use Rattle.scene_ask.specs.Asking.{most_pending};
ghost use Rattle.scene_ask.specs.Asking.{says_of, handle_says, area_says, counts_say};

use crate::adding::{AnswerLine, push_area, push_count, push_integer, push_quoted, push_span};
use crate::children::put_children;
use crate::slots::push_used;
use arrayvec::ArrayVec;
use gui_base::{Area, Handle};
use gui_core::Gui;
use gui_edge::text::{push_bytes, push_number};
use gui_edge::{Failed, Sink};
use scene_script::{Fact, Question};

/// Answers a question with a line that begins with this number, or tells that it is none. Nothing changes.
pub fn ask<A: Sink>(
    gui: &Gui,
    question: Option<Question>,
    number: u32,
    answers: &mut A,
) -> Result<(), Failed>
    ensures ok { OnOk result (Appends (A.state answers.old).held (A.state answers.new).held
        (answer_line number (machine_of gui.now) (total (pending_in gui.now).areas) question)) }
    ensures err { OnErr result (AppendsPrefix (A.state answers.old).held (A.state answers.new).held
        (answer_line number (machine_of gui.now) (total (pending_in gui.now).areas) question)) }
    ensures cause { HasCause (A.state answers.old).faults (A.state answers.new).faults result }
    ensures few { total (pending_in gui.now).areas ≤ most_pending (machine_of gui.now) }
{
    // It tells how many pixels are pending at most.
    let pending = gui.pending();
    match question {
        Some(Question::Children(h)) => put_children(gui, h, number, answers),
        _ => answers.put(answer_text(gui, pending, question, number).as_slice()),
    }
}

/// The line of an answer whose length has a bound.
fn answer_text(gui: &Gui, pending: u64, question: Option<Question>, number: u32) -> AnswerLine
    requires pending { pending ≡ total (pending_in gui.now).areas }
    requires short { is_short question ≡ true }
    ensures { result.items ≡ answer_line number (machine_of gui.now) (total (pending_in gui.now).areas) question }
{
    let mut text = ArrayVec::new();
    push_number(&mut text, number);
    match question {
        Some(question) => push_answer(&mut text, gui, pending, question),
        None => push_bytes(&mut text, b" unknown"),
    }
    push_bytes(&mut text, b"\n");
    text
}

/// Adds the words of an answer.
fn push_answer(text: &mut AnswerLine, gui: &Gui, pending: u64, question: Question)
    requires pending { pending ≡ total (pending_in gui.now).areas }
    requires short { is_short (Some question) ≡ true }
    requires room { array_vec_len text.old + 2060 ≤ 2100 }
    ensures items { text.new.items ≡ text.old.items ++ answer_words (machine_of gui.now) (total (pending_in gui.now).areas) question }
    ensures len { array_vec_len text.new ≤ array_vec_len text.old + 2060 }
{
    match question {
        Question::Of(fact, h) => push_fact(text, gui, fact, h),
        Question::Property(h, part, prop) => {
            push_bytes(text, b" property");
            if gui.store().tree().has(h) {
                push_integer(text, gui.store().value(h, part, prop));
            } else {
                push_bytes(text, b" none");
            }
        }
        Question::Children(_) => unreachable!(),
        Question::Active => {
            push_bytes(text, b" active");
            push_count(text, u64::from(gui.store().active().0));
        }
        Question::Hit(x, y) => {
            push_bytes(text, b" hit");
            push_handle(text, gui.hit(x, y));
        }
        Question::Focused(group) => {
            push_bytes(text, b" focused");
            push_handle(text, gui.focused(group));
        }
        Question::Time => {
            push_bytes(text, b" time");
            push_count(text, gui.time());
        }
        Question::Used(pool) => {
            push_bytes(text, b" used");
            push_used(text, gui, pool);
        }
        Question::Pending => {
            push_bytes(text, b" pending");
            push_count(text, pending);
        }
    }
}

/// Adds what is known of an object.
fn push_fact(text: &mut AnswerLine, gui: &Gui, fact: Fact, h: Handle)
    requires { array_vec_len text.old + 2060 ≤ 2100 }
    ensures items { text.new.items ≡ text.old.items ++ fact_says (machine_of gui.now).scene h.0 fact }
    ensures len { array_vec_len text.new ≤ array_vec_len text.old + 2060 }
{
    match fact {
        Fact::Value => {
            push_bytes(text, b" value");
            match gui.store().row(h) {
                Some(row) => push_integer(text, row.value),
                None => push_bytes(text, b" none"),
            }
        }
        Fact::States => {
            push_bytes(text, b" states");
            match gui.store().row(h) {
                Some(row) => push_count(text, u64::from(row.states)),
                None => push_bytes(text, b" none"),
            }
        }
        Fact::Flags => {
            push_bytes(text, b" flags");
            match gui.store().row(h) {
                Some(row) => push_count(text, u64::from(row.flags)),
                None => push_bytes(text, b" none"),
            }
        }
        Fact::Text => {
            push_bytes(text, b" text");
            push_text(text, gui, h);
        }
        Fact::Place => {
            push_bytes(text, b" place");
            push_place(text, gui.places().place(h));
        }
        Fact::Visible => {
            push_bytes(text, b" visible");
            push_seen(text, gui.places().visible(gui.store(), h));
        }
        Fact::Offset => {
            push_bytes(text, b" offset");
            push_counts(text, gui.places().offset(h));
        }
        Fact::Reach => {
            push_bytes(text, b" reach");
            push_counts(text, gui.places().reach(h));
        }
    }
}

/// Adds the text of an object.
fn push_text(text: &mut AnswerLine, gui: &Gui, h: Handle)
    requires { array_vec_len text.old + 2010 ≤ 2100 }
    ensures items { let scene = (machine_of gui.now).scene in
        text.new.items ≡ text.old.items
        ++ (if is_there scene h.0 then 32 ∷ quoted (text_at scene h.0) else codes " none") }
    ensures len { array_vec_len text.new ≤ array_vec_len text.old + 2010 }
{
    if !gui.store().tree().has(h) {
        push_bytes(text, b" none");
        return;
    }
    let mut said = ArrayVec::new();
    gui.store().text_into(h, &mut said);
    push_quoted(text, said.as_slice());
}

/// Adds the name of an object.
fn push_handle(text: &mut AnswerLine, h: Option<Handle>)
    requires { array_vec_len text.old + 21 ≤ 2100 }
    ensures items { text.new.items ≡ text.old.items ++ says_of handle_says h }
    ensures len { array_vec_len text.new ≤ array_vec_len text.old + 21 }
{
    match h {
        Some(h) => push_count(text, u64::from(h.0)),
        None => push_bytes(text, b" none"),
    }
}

/// Adds a place.
fn push_place(text: &mut AnswerLine, place: Option<Area>)
    requires { array_vec_len text.old + 48 ≤ 2100 }
    ensures items { text.new.items ≡ text.old.items ++ says_of area_says (option_map rect_of place) }
    ensures len { array_vec_len text.new ≤ array_vec_len text.old + 48 }
{
    match place {
        Some(area) => push_area(text, area),
        None => push_bytes(text, b" none"),
    }
}

/// Adds what is seen of an object.
fn push_seen(text: &mut AnswerLine, area: Area)
    requires { array_vec_len text.old + 48 ≤ 2100 }
    ensures items { text.new.items ≡ text.old.items ++ says_of area_says (some_area (rect_of area)) }
    ensures len { array_vec_len text.new ≤ array_vec_len text.old + 48 }
{
    if area.is_empty() {
        push_bytes(text, b" none");
    } else {
        push_area(text, area);
    }
}

/// Adds how far it is across and down.
fn push_counts(text: &mut AnswerLine, span: Option<(u32, u32)>)
    requires { array_vec_len text.old + 42 ≤ 2100 }
    ensures items { text.new.items ≡ text.old.items
        ++ says_of (λ span. counts_say span.across span.down) (option_map span_from span) }
    ensures len { array_vec_len text.new ≤ array_vec_len text.old + 42 }
{
    match span {
        Some((across, down)) => push_span(text, across, down),
        None => push_bytes(text, b" none"),
    }
}

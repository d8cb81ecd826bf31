//! What a step writes into the log.
ghost use Rattle.std.specs.Prelude.{◌≡◌, ◌≤◌, length, false};
ghost use Rattle.run_defs.specs.Events.{event_line, event_name};
ghost use Rattle.run_defs.specs.Making.{refused_line};
ghost use Rattle.gui_board.specs.Writing.{WritesBy};

use arrayvec::ArrayVec;
use gui_base::{EventKind, Handle, Refusal};
use gui_edge::text::{push_bytes, push_number};
use gui_edge::{Failed, Sink};
use run_defs::why;

/// How the log goes in a step.
#[derive(Clone, Copy, Drop)]
pub struct Scribe {
    /// Whether the log has failed. Nothing is written from then on.
    pub cut: bool,
    /// Whether an action was refused.
    pub noted: bool,
}

impl Scribe {
    /// As a step begins.
    pub fn new() -> Scribe
        ensures { result ≡ record { cut = false; noted = false } }
    {
        Scribe {
            cut: false,
            noted: false,
        }
    }

    /// Writes a line, unless the log has failed.
    pub fn write<S: Sink>(&mut self, line: &[u8], log: &mut S)
        ensures lines { WritesBy self.old.cut self.new.cut (S.state log.old) (S.state log.new) line.now }
        ensures noted { self.new.noted ≡ self.old.noted }
    {
        if !self.cut {
            self.cut = put_fails(line, log);
        }
    }
}

/// Whether the log fails to take a line.
fn put_fails<S: Sink>(line: &[u8], log: &mut S) -> bool
    ensures { WritesBy false result (S.state log.old) (S.state log.new) line.now }
{
    match log.put(line) {
        Ok(()) => false,
        Err(Failed) => true,
    }
}

/// The name of an event.
fn event_word(kind: EventKind) -> &'static [u8]
    ensures name { result.now ≡ event_name kind }
    ensures short { length result.now ≤ 19 }
{
    match kind {
        EventKind::Pressed => b"pressed",
        EventKind::Pressing => b"pressing",
        EventKind::LongPressed => b"long_pressed",
        EventKind::LongPressedRepeat => b"long_pressed_repeat",
        EventKind::Released => b"released",
        EventKind::ShortClicked => b"short_clicked",
        EventKind::Clicked => b"clicked",
        EventKind::ValueChanged => b"value_changed",
        EventKind::Focused => b"focused",
        EventKind::Defocused => b"defocused",
        EventKind::Key => b"key",
    }
}

/// A line of the log that tells of an event: its target, and the object whose handler runs.
pub fn event_text(kind: EventKind, target: Handle, current: Handle) -> ArrayVec<u8, 64>
    ensures { result.items ≡ event_line kind target current }
{
    let mut text = ArrayVec::new();
    push_bytes(&mut text, b"event ");
    push_bytes(&mut text, event_word(kind));
    push_bytes(&mut text, b" ");
    push_number(&mut text, target.0 as u32);
    push_bytes(&mut text, b" ");
    push_number(&mut text, current.0 as u32);
    push_bytes(&mut text, b"\n");
    text
}

/// The line of the log that tells of an action that was refused.
pub fn refusal_text(refusal: Refusal) -> ArrayVec<u8, 64>
    ensures { result.items ≡ refused_line refusal }
{
    let mut text = ArrayVec::new();
    push_bytes(&mut text, b"action refused ");
    push_bytes(&mut text, why(refusal).as_bytes());
    push_bytes(&mut text, b"\n");
    text
}

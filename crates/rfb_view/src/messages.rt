//! What a viewer says in a message.
ghost use Rattle.std.specs.Prelude.{◌≡◌, pos, true, IfSome};
ghost use Rattle.gui_base.specs.Area.{area_at};
ghost use Rattle.gui_base.specs.Corners.{rect_of};
ghost use Rattle.run_defs.specs.Step.{IsCommand};
ghost use Rattle.session_defs.specs.Bytes.{sixteen_at};
ghost use Rattle.session_defs.specs.Formats.{is_channel, is_format, read_format, format_at};
ghost use Rattle.session_defs.specs.Messages.{key_of, pressed, pointed, message_of};
ghost use Rattle.rfb_view.specs.Messages.{meaning_of, IsSayable};

use crate::bytes::{byte_at, sixteen_at, thirty_two_at};
use gui_base::{Area, Key};
use run_defs::Command;
use session_defs::{Channel, Format, RfbBad};

/// What a viewer says in a message.
#[derive(Drop)]
pub enum Message {
    /// From now on it wants its pixels in this format.
    Wants(Format),
    /// Nothing that is looked at.
    Passes,
    /// It asks for the pixels of an area, or only for what changed of them.
    Asks { changes: bool, area: Area },
    /// An input, or a key that nothing is known of.
    Inputs(Option<Command<'static>>),
    /// What no viewer may say.
    Errs(RfbBad),
}

/// The greatest x and y of a pointer, in pixels.
const FARTHEST: u16 = 4000;

/// What a message says, by its first twenty bytes or by all that it has.
#[tactic(auto, using(crate::proofs::Sayings::sayable_input, crate::proofs::Sayings::sayable_format))]
pub fn message_of(head: &[u8]) -> Message
    ensures meaning { meaning_of result ≡ message_of head.now }
    ensures sayable { IsSayable result }
{
    match byte_at(head, 0) {
        0 => match format_in(head) {
            Some(format) => Message::Wants(format),
            None => Message::Errs(RfbBad::Format),
        },
        2 | 6 => Message::Passes,
        3 => Message::Asks {
            changes: byte_at(head, 1) != 0,
            area: area_in(head),
        },
        4 => Message::Inputs(pressed(thirty_two_at(head, 4), byte_at(head, 1) != 0)),
        5 => Message::Inputs(Some(pointed(
            byte_at(head, 1),
            sixteen_at(head, 2),
            sixteen_at(head, 4),
        ))),
        _ => Message::Errs(RfbBad::Message),
    }
}

/// The format that a message asks for, if it may be asked for.
fn format_in(head: &[u8]) -> Option<Format>
    ensures format { result ≡ format_at head.now 4 }
    ensures may { IfSome result (λ format. is_format format ≡ true) }
{
    let format = read_format(head);
    if byte_at(head, 7) != 0 && is_format(format) {
        Some(format)
    } else {
        None
    }
}

/// The format whose bytes stand in a message.
fn read_format(head: &[u8]) -> Format
    ensures { result ≡ read_format head.now 4 }
{
    Format {
        bits: byte_at(head, 4),
        big: byte_at(head, 6) != 0,
        red: Channel {
            most: sixteen_at(head, 8),
            shift: byte_at(head, 14),
        },
        green: Channel {
            most: sixteen_at(head, 10),
            shift: byte_at(head, 15),
        },
        blue: Channel {
            most: sixteen_at(head, 12),
            shift: byte_at(head, 16),
        },
    }
}

/// Whether a format may be asked for: pixels of 8, 16 or 32 bits, and channels as they may be.
fn is_format(format: Format) -> bool
    ensures { result ≡ is_format format }
{
    (format.bits == 8 || (format.bits == 16 || format.bits == 32))
        && (is_channel(format.red) && (is_channel(format.green) && is_channel(format.blue)))
}

/// Whether a channel has a greatest value from 1 on, and a shift up to 31.
fn is_channel(channel: Channel) -> bool
    ensures { result ≡ is_channel channel }
{
    1 <= channel.most && channel.shift <= 31
}

/// The area that a message asks for.
fn area_in(head: &[u8]) -> Area
    ensures { rect_of result
        ≡ area_at (pos (sixteen_at head.now 2)) (pos (sixteen_at head.now 4)) (sixteen_at head.now 6) (sixteen_at head.now 8) }
{
    Area::at(
        i32::from(sixteen_at(head, 2)),
        i32::from(sixteen_at(head, 4)),
        u32::from(sixteen_at(head, 6)),
        u32::from(sixteen_at(head, 8)),
    )
}

/// The key that a symbol of the window system names, if it is one that is known.
fn key_of(symbol: u32) -> Option<Key>
    ensures { result ≡ key_of symbol }
{
    match symbol {
        0xFF0D => Some(Key::Enter),
        0xFF09 => Some(Key::Next),
        0xFE20 => Some(Key::Prev),
        0xFF51 => Some(Key::Left),
        0xFF52 => Some(Key::Up),
        0xFF53 => Some(Key::Right),
        0xFF54 => Some(Key::Down),
        _ => None,
    }
}

/// The input of a key that goes down, or up.
fn pressed(symbol: u32, down: bool) -> Option<Command<'static>>
    ensures input { result ≡ pressed (key_of symbol) down }
    ensures command { IfSome result IsCommand }
{
    match key_of(symbol) {
        Some(key) => Some(Command::Key(key, down)),
        None => None,
    }
}

/// The input of a pointer: it is down if the first bit of the mask of its buttons is set.
fn pointed(mask: u8, x: u16, y: u16) -> Command<'static>
    ensures input { result ≡ pointed mask x y }
    ensures command { IsCommand result }
{
    if mask % 2 == 1 {
        Command::Touch(i32::from(x.min(FARTHEST)), i32::from(y.min(FARTHEST)))
    } else {
        Command::Release
    }
}

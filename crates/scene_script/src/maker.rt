//! The made script, line by line.
ghost use Rattle.std.specs.Prelude.{◌≡◌, ◌≤◌, ◌<◌, ◌+◌, ◌++◌, ◌∷◌, [], length, slice_index, decimal, IfNone, IfSome};
ghost use Rattle.arrayvec.specs.ArrayString.{array_string_len};
ghost use Rattle.hex.specs.Hex.{encode_upper, upper_digits};
ghost use Rattle.gui_base.specs.Bounded.{bounds_of};
ghost use Rattle.run_defs.specs.Made.{number_text, pair_text, command_drawn, line_drawn, made_script};
ghost use Rattle.scene_script.specs.MadeLines.{IsSized};

use crate::made::{Draws, LinesLeft, command_at};
use arrayvec::ArrayString;
use gui_base::Limits;
use itoa::Buffer;
use run_defs::{MadeCommand, MadeLine};
use std::marker::Model;

/// The text of a line of the made script.
type MadeText = ArrayString<64>;

/// Adds the digits of a number, at most ten.
fn push_number(text: &mut MadeText, number: u32)
    requires { array_string_len text.old + 10 ≤ 64 }
    ensures bytes { text.new.bytes ≡ text.old.bytes ++ decimal number }
    ensures len { array_string_len text.new ≤ array_string_len text.old + 10 }
{
    let mut buffer = Buffer::new();
    text.push_str(buffer.format(number));
}

/// The digit of a number below 16.
#[tactic(auto, using(crate::proofs::HexLemmas::digit_is_ascii))]
fn hex_digit(n: u32) -> char
    requires { n < 16 }
    ensures value { result ≡ slice_index upper_digits n }
    ensures ascii { result < 128 }
{
    char::from(b"0123456789ABCDEF"[n as usize])
}

/// Adds a number below 256 as two hexadecimal digits.
#[tactic(auto, using(std::proofs::lemmas::Str::encode_ascii))]
fn push_hex(text: &mut MadeText, byte: u32)
    requires byte { byte < 256 }
    requires room { array_string_len text.old + 2 ≤ 64 }
    ensures bytes { text.new.bytes ≡ text.old.bytes ++ encode_upper (byte ∷ []) }
    ensures len { array_string_len text.new ≡ array_string_len text.old + 2 }
{
    text.push(hex_digit(byte / 16));
    text.push(hex_digit(byte % 16));
}

/// Writes two numbers of an object, after this name and a space.
fn push_pair(text: &mut MadeText, name: &str, h: u32, a: u32, b: u32)
    requires empty { text.old.bytes ≡ [] }
    requires name { length name.now ≤ 8 }
    ensures { text.new.bytes ≡ pair_text name.now h a b }
{
    text.push_str(name);
    push_number(text, h);
    text.push_str(" ");
    push_number(text, a);
    text.push_str(" ");
    push_number(text, b);
}

/// Writes a number between these texts.
fn push_between(text: &mut MadeText, before: &str, number: u32, behind: &str)
    requires empty { text.old.bytes ≡ [] }
    requires before { length before.now ≤ 8 }
    requires behind { length behind.now ≤ 16 }
    ensures bytes { text.new.bytes ≡ number_text before.now number behind.now }
    ensures len { array_string_len text.new ≤ 34 }
{
    text.push_str(before);
    push_number(text, number);
    text.push_str(behind);
}

/// Writes a command on this object of a panel of this width and height.
#[tactic(auto, using(crate::proofs::HexLemmas::three_bytes))]
fn push_command(
    text: &mut MadeText,
    command: MadeCommand,
    h: u32,
    width: u32,
    height: u32,
    draws: &mut Draws,
)
    requires empty { text.old.bytes ≡ [] }
    requires sized { IsSized width height }
    ensures text { text.new.bytes ≡ (command_drawn width height command h draws.old.x).text }
    ensures draws { draws.new.x ≡ (command_drawn width height command h draws.old.x).x }
{
    match command {
        MadeCommand::New => push_between(text, "new ", h, " 3 obj"),
        MadeCommand::Size => {
            let w = 1 + draws.draw(width);
            push_pair(text, "size ", h, w, 1 + draws.draw(height));
        }
        MadeCommand::Pos => {
            let x = draws.draw(width);
            push_pair(text, "pos ", h, x, draws.draw(height));
        }
        MadeCommand::Color => {
            push_between(text, "local ", h, " main bg_color #");
            push_hex(text, draws.draw(256));
            push_hex(text, draws.draw(256));
            push_hex(text, draws.draw(256));
        }
        MadeCommand::Opacity => {
            push_between(text, "local ", h, " main bg_opa ");
            push_number(text, draws.draw(256));
        }
        MadeCommand::Front => push_between(text, "front ", h, ""),
    }
}

/// Writes a line on a panel of this width and height.
fn push_line(text: &mut MadeText, line: MadeLine, width: u32, height: u32, draws: &mut Draws)
    requires empty { text.old.bytes ≡ [] }
    requires sized { IsSized width height }
    ensures text { text.new.bytes ≡ (line_drawn width height line draws.old.x).text }
    ensures draws { draws.new.x ≡ (line_drawn width height line draws.old.x).x }
{
    match line {
        MadeLine::Object(command, h) => push_command(text, command, h, width, height, draws),
        MadeLine::Drawn => {
            let h = 10 + draws.draw(50);
            let command = command_at(draws.draw(4));
            push_command(text, command, h, width, height, draws);
        }
        MadeLine::Frame => text.push_str("frame"),
    }
}

/// Gives the lines of a made script, in order. Its value is the list of the lines that are left, each as its
/// bytes. It takes no memory.
#[derive(Drop)]
pub struct Maker {
    width: u32,
    height: u32,
    lines: LinesLeft,
    draws: Draws,
}

impl Model for Maker {
    ghost use Rattle.std.specs.Prelude.{ℕ, List};
    ghost use Rattle.run_defs.specs.Made.{texts_drawn};
    ghost use Rattle.scene_script.specs.MadeLines.{IsSized};

    ghost Value = { List (List ℕ) };

    ghost view = { λ m. texts_drawn m.width m.height m.lines m.draws.x };

    ghost invariant = { λ m. IsSized m.width m.height };
}

impl Maker {
    /// A maker of the made script of a number, for a panel with these limits.
    pub fn new(k: u16, limits: &Limits) -> Maker
        requires least { 1 ≤ k }
        requires most { k ≤ 1000 }
        ensures { result ≡ made_script k (bounds_of limits.now) }
    {
        Maker {
            width: limits.width,
            height: limits.height,
            lines: LinesLeft::all(),
            draws: Draws { x: u32::from(k) },
        }
    }

    /// The next line, if one is left.
    pub fn next_line(&mut self) -> Option<ArrayString<64>>
        ensures line { IfSome result (λ line. self.old ≡ line.bytes ∷ self.new) }
        ensures end { IfNone result ((self.old ≡ []) × (self.new ≡ [])) }
    {
        let Some(line) = self.lines.next_line() else {
            return None;
        };
        let mut text = ArrayString::new();
        push_line(&mut text, line, self.width, self.height, &mut self.draws);
        Some(text)
    }
}

//! What the lines of a made script say. No text of them is made, so none is read.
ghost use Rattle.std.specs.Prelude.{◌≡◌, ◌≤◌, ◌∷◌, [], IfNone, IfSome, Ok};
ghost use Rattle.gui_base.specs.Bounded.{bounds_of};
ghost use Rattle.line_texts.specs.MadeLines.{change_drawn};
ghost use Rattle.run_defs.specs.Made.{command_drawn, line_drawn, made_says};
ghost use Rattle.run_defs.specs.Script.{parse};
ghost use Rattle.scene_script.specs.MadeLines.{IsOnMade, IsSized};

use crate::made::{Draws, LinesLeft, command_at};
use gui_base::{Handle, Kind, Length, Limits, Part, Prop, Selector};
use run_defs::{Command, Line, MadeCommand, MadeLine};
use scene_defs::Change;
use std::marker::Model;

/// The first screen, below which each object of the script is made.
const FIRST_SCREEN: Handle = Handle(3);

/// The main part in every state.
const MAIN: Selector = Selector {
    part: Part::Main,
    states: 0,
};

/// The change that a command asks for on this object of a panel of this width and height.
fn change_of(
    command: MadeCommand,
    h: Handle,
    width: u32,
    height: u32,
    draws: &mut Draws,
) -> Change<'static>
    requires { IsSized width height }
    ensures change { result ≡ change_drawn width height command h.0 draws.old.x }
    ensures draws { draws.new.x ≡ (command_drawn width height command h.0 draws.old.x).x }
{
    match command {
        MadeCommand::New => Change::New(h, FIRST_SCREEN, Kind::Obj),
        MadeCommand::Size => {
            let wide = Length::Pixels((1 + draws.draw(width)) as u16);
            Change::Size(h, wide, Length::Pixels((1 + draws.draw(height)) as u16))
        }
        MadeCommand::Pos => {
            let x = draws.draw(width) as i32;
            Change::Pos(h, x, draws.draw(height) as i32)
        }
        MadeCommand::Color => Change::Local(h, MAIN, Prop::BgColor, draws.draw_color()),
        MadeCommand::Opacity => Change::Local(h, MAIN, Prop::BgOpa, draws.draw(256) as i32),
        MadeCommand::Front => Change::Front(h),
    }
}

/// What a line says on a panel of this width and height.
fn line_of(line: MadeLine, width: u32, height: u32, draws: &mut Draws) -> Line<'static>
    requires sized { IsSized width height }
    requires on_made { IsOnMade line }
    ensures says { Ok result ≡ parse (line_drawn width height line draws.old.x).text }
    ensures draws { draws.new.x ≡ (line_drawn width height line draws.old.x).x }
{
    let change = match line {
        MadeLine::Object(command, h) => change_of(command, Handle(h as u16), width, height, draws),
        MadeLine::Drawn => {
            let h = Handle((10 + draws.draw(50)) as u16);
            let command = command_at(draws.draw(4));
            change_of(command, h, width, height, draws)
        }
        MadeLine::Frame => return Line::Frame,
    };
    Line::Make(Command::Change(change))
}

/// Gives what the lines of a made script say, in order. Its value is the list of what is left to say. It takes
/// no memory.
#[derive(Drop)]
pub struct MadeSays {
    width: u32,
    height: u32,
    lines: LinesLeft,
    draws: Draws,
}

impl Model for MadeSays {
    ghost use Rattle.std.specs.Prelude.{List};
    ghost use Rattle.run_defs.specs.Script.{Said};
    ghost use Rattle.scene_script.specs.MadeLines.{IsSized, says_drawn};

    ghost Value = { List Said };

    ghost view = { λ m. says_drawn m.width m.height m.lines m.draws.x };

    ghost invariant = { λ m. IsSized m.width m.height };
}

impl MadeSays {
    /// What the made script of a number says, for a panel with these limits.
    pub fn new(k: u16, limits: &Limits) -> MadeSays
        requires least { 1 ≤ k }
        requires most { k ≤ 1000 }
        ensures { result ≡ made_says k (bounds_of limits.now) }
    {
        MadeSays {
            width: limits.width,
            height: limits.height,
            lines: LinesLeft::all(),
            draws: Draws { x: u32::from(k) },
        }
    }

    /// What the next line says, if one is left.
    pub fn next_said(&mut self) -> Option<Line<'static>>
        ensures line { IfSome result (λ line. self.old ≡ Ok line ∷ self.new) }
        ensures end { IfNone result ((self.old ≡ []) × (self.new ≡ [])) }
    {
        let Some(line) = self.lines.next_line() else {
            return None;
        };
        Some(line_of(line, self.width, self.height, &mut self.draws))
    }
}

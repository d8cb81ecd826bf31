//! The lines of a made script by their places, and the numbers that are drawn for them.
ghost use Rattle.std.specs.Prelude.{◌≡◌, ◌≤◌, ◌<◌, ◌+◌, ◌*◌, ◌∷◌, [], pos, IfNone, IfSome};
ghost use Rattle.run_defs.specs.Made.{draw, drawn, command_at, made_lines};
ghost use Rattle.scene_script.specs.MadeLines.{IsOnMade, making_at, made_line_at};

use run_defs::{MadeCommand, MadeLine};
use std::marker::Model;

/// How many lines the made script has.
const LINES: u32 = 1261;

/// A stream of draws.
#[derive(Clone, Copy)]
pub(crate) struct Draws {
    pub(crate) x: u32,
}

impl Draws {
    /// A number below n.
    #[tactic(auto, unfolding(run_defs::specs::Made::draw, run_defs::specs::Made::drawn))]
    pub(crate) fn draw(&mut self, n: u32) -> u32
        requires { 1 ≤ n }
        ensures value { result ≡ draw n self.old.x }
        ensures state { self.new.x ≡ drawn self.old.x }
        ensures below { result < n }
    {
        self.x = ((1_103_515_245 * u64::from(self.x) + 12_345) % 2_147_483_648) as u32;
        self.x / 65_536 % n
    }

    /// A colour: 65536 * red + 256 * green + blue, each of them drawn.
    pub(crate) fn draw_color(&mut self) -> i32
        ensures value { result ≡ pos (65536 * draw 256 self.old.x
            + 256 * draw 256 (drawn self.old.x) + draw 256 (drawn (drawn self.old.x))) }
        ensures state { self.new.x ≡ drawn (drawn (drawn self.old.x)) }
    {
        let red = self.draw(256);
        let green = self.draw(256);
        (65_536 * red + 256 * green + self.draw(256)) as i32
    }
}

/// The command of a draw below 4.
pub(crate) fn command_at(t: u32) -> MadeCommand
    ensures { result ≡ command_at t }
{
    match t {
        0 => MadeCommand::Pos,
        1 => MadeCommand::Size,
        2 => MadeCommand::Opacity,
        _ => MadeCommand::Front,
    }
}

/// The nth of the commands that make an object.
fn making_at(n: u32) -> MadeCommand
    ensures { result ≡ making_at n }
{
    match n {
        0 => MadeCommand::New,
        1 => MadeCommand::Size,
        2 => MadeCommand::Pos,
        3 => MadeCommand::Color,
        _ => MadeCommand::Opacity,
    }
}

/// The line at this place of the made script. Five lines make an object each, and from there on every hundred
/// and first line is a frame.
#[tactic(auto, unfolding(crate::specs::MadeLines::made_line_at))]
fn line_at(place: u32) -> MadeLine
    ensures line { result ≡ made_line_at place }
    ensures on_made { IsOnMade result }
{
    if place < 250 {
        MadeLine::Object(making_at(place % 5), 10 + place / 5)
    } else if (place - 250) % 101 == 0 {
        MadeLine::Frame
    } else {
        MadeLine::Drawn
    }
}

/// The lines of the made script that are left. They are the same for each number.
#[derive(Drop)]
pub(crate) struct LinesLeft {
    place: u32,
}

impl Model for LinesLeft {
    ghost use Rattle.std.specs.Prelude.{◌≤◌, List, drop};
    ghost use Rattle.run_defs.specs.Made.{made_lines};
    ghost use Rattle.run_defs.specs.declared.made.MadeLine.{MadeLine};

    ghost Value = { List MadeLine };

    ghost view = { λ m. drop m.place made_lines };

    ghost invariant = { λ m. m.place ≤ 1261 };
}

impl LinesLeft {
    /// All lines are left.
    pub(crate) fn all() -> LinesLeft
        ensures { result ≡ made_lines }
    {
        LinesLeft { place: 0 }
    }

    /// The next line, if one is left.
    #[tactic(auto, using(crate::proofs::MadeLemmas::line_left, crate::proofs::MadeLemmas::none_left))]
    pub(crate) fn next_line(&mut self) -> Option<MadeLine>
        ensures line { IfSome result (λ line. self.old ≡ line ∷ self.new) }
        ensures on_made { IfSome result IsOnMade }
        ensures end { IfNone result ((self.old ≡ []) × (self.new ≡ [])) }
    {
        if self.place == LINES {
            return None;
        }
        let line = line_at(self.place);
        self.place += 1;
        Some(line)
    }
}

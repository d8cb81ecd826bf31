//! Lines that are given to a machine, and what is seen of its scene.
ghost use Rattle.std.specs.Prelude.{◌≡◌, ◌<◌, IfSome};
ghost use Rattle.gui_core.specs.Machines.{refresher_in};
ghost use Rattle.run_defs.specs.Step.{IsCommand};

use arrayvec::ArrayVec;
use gui_base::{Area, Handle, Limits, Steps};
use gui_core::{Gui, Reply};
use gui_edge::MemSink;
use run_defs::{Command, Line};
use scene_script::parse_line;
use std::alloc::Global;
use std::marker::Brand;
use std::sync::ledger::{Blank, Ledger};
use std::test::Fail;

/// The command that a line says, if it says one.
#[tactic(auto, using(run_defs::proofs::Ranges::says_in_range))]
fn command_of(line: &str) -> Option<Command<'_>>
    ensures { IfSome result IsCommand }
{
    match parse_line(line.as_bytes()) {
        Ok(Line::Make(command)) => Some(command),
        _ => None,
    }
}

/// Whether a line is a command that is done.
fn is_done(gui: &mut Gui, log: &mut MemSink, line: &str) -> bool
    ensures { refresher_in gui.new ≡ refresher_in gui.old }
{
    match command_of(line) {
        Some(command) => gui
            .apply(&command, log)
            .is_ok_and(|reply| reply == Reply::Ok { noted: false }),
        None => false,
    }
}

/// Gives the lines of a script to the machine, of which each must be done.
fn play(gui: &mut Gui, log: &mut MemSink, script: &str) -> Result<(), &'static str>
    ensures { refresher_in gui.new ≡ refresher_in gui.old }
{
    let mut rest = script;
    for _ in 0..script.len() {
        let Some((line, after)) = rest.split_once('\n') else {
            break;
        };
        if !is_done(gui, log, line) {
            return Err("a line is not done");
        }
        rest = after;
    }
    if rest.is_empty() {
        Ok(())
    } else {
        Err("a script ends within a line")
    }
}

/// The corners of an area.
fn corners(area: Area) -> [i32; 4] {
    [area.x1, area.y1, area.x2, area.y2]
}

/// Whether an object stands there.
fn stands(gui: &Gui, h: u16, at: [i32; 4]) -> bool {
    match gui.places().place(Handle(h)) {
        Some(area) => corners(area) == at,
        None => false,
    }
}

/// Whether this much of an object is visible.
fn is_seen(gui: &Gui, h: u16, at: [i32; 4]) -> bool {
    corners(gui.places().visible(gui.store(), Handle(h))) == at
}

/// The wanted x of an object, its value and the states that it is in.
fn numbers(gui: &Gui, h: u16) -> Option<(i32, i32, u16)> {
    match gui.store().row(Handle(h)) {
        Some(row) => Some((row.x, row.value, row.states)),
        None => None,
    }
}

/// Whether an object's wanted x is this.
fn has_x(gui: &Gui, h: u16, wanted: i32) -> bool {
    numbers(gui, h).is_some_and(|(x, _, _)| x == wanted)
}

/// Whether an object's value is this.
fn has_value(gui: &Gui, h: u16, wanted: i32) -> bool {
    numbers(gui, h).is_some_and(|(_, value, _)| value == wanted)
}

/// Whether an object is in these states.
fn is_in(gui: &Gui, h: u16, wanted: u16) -> bool {
    numbers(gui, h).is_some_and(|(_, _, states)| states == wanted)
}

/// Whether the children of an object are to be scrolled so far.
fn has_scroll(gui: &Gui, h: u16, across: i32, down: i32) -> bool {
    match gui.store().row(Handle(h)) {
        Some(row) => row.scroll_x == across && row.scroll_y == down,
        None => false,
    }
}

/// Whether the text of an object, as its items show it, is so many bytes long.
fn shows_text(gui: &Gui, h: u16, len: usize) -> bool {
    if !gui.store().tree().has(Handle(h)) {
        return false;
    }
    let mut text = ArrayVec::new();
    gui.places()
        .look(gui.store(), Handle(h), &mut text)
        .text
        .len()
        == len
}

/// Whether a point hits an object.
fn hits(gui: &Gui, x: i32, y: i32, wanted: u16) -> bool {
    match gui.hit(x, y) {
        Some(h) => h.0 == wanted,
        None => false,
    }
}

/// The sum of the picture's colours.
fn sum<L: Ledger>(gui: &mut Gui, blank: Blank) -> u16
    requires name { blank.name ≡ L.name }
    requires parts { blank.parts ≡ L.parts }
    requires some { 0 < blank.parts }
    requires free { 0 < (refresher_in gui.old).free }
    ensures { gui.new ≡ gui.old }
{
    let (book, all) = blank.open::<L>();
    let mut steps = Steps::new(book, all);
    gui.picture_sum(&mut steps)
}

/// Whether the colours of the picture have this sum.
fn has_sum(gui: &mut Gui, wanted: u16) -> bool
    requires { 0 < (refresher_in gui.old).free }
    ensures { gui.new ≡ gui.old }
{
    sum::<Brand>(gui, Blank::new(1)) == wanted
}

/// What is wanted of a machine.
#[derive(Clone, Copy)]
pub(crate) enum Want {
    /// An object stands there.
    Place(u16, [i32; 4]),
    /// This much of it is visible.
    Seen(u16, [i32; 4]),
    /// Its wanted x.
    X(u16, i32),
    /// Its value.
    Value(u16, i32),
    /// The states that it is in.
    States(u16, u16),
    /// How far its children are to be scrolled, across and down.
    Scroll(u16, i32, i32),
    /// How many bytes the text has that it shows.
    Text(u16, usize),
    /// The object that a point hits.
    Hit(i32, i32, u16),
    /// The sum of the picture's colours.
    Sum(u16),
}

/// Whether a machine is so.
fn is_so(gui: &mut Gui, want: Want) -> bool
    requires { 0 < (refresher_in gui.old).free }
    ensures { gui.new ≡ gui.old }
{
    match want {
        Want::Place(h, at) => stands(gui, h, at),
        Want::Seen(h, at) => is_seen(gui, h, at),
        Want::X(h, wanted) => has_x(gui, h, wanted),
        Want::Value(h, wanted) => has_value(gui, h, wanted),
        Want::States(h, wanted) => is_in(gui, h, wanted),
        Want::Scroll(h, across, down) => has_scroll(gui, h, across, down),
        Want::Text(h, len) => shows_text(gui, h, len),
        Want::Hit(x, y, wanted) => hits(gui, x, y, wanted),
        Want::Sum(wanted) => has_sum(gui, wanted),
    }
}

/// Whether the machine is so after a script, of which each line must be done.
fn is_so_with(gui: &mut Gui, log: &mut MemSink, script: &str, wanted: &[Want]) -> Result<bool, Fail>
    requires { 0 < (refresher_in gui.old).free }
{
    play(gui, log, script)?;
    for want in wanted {
        if !is_so(gui, *want) {
            return Ok(false);
        }
    }
    Ok(true)
}

/// Whether a machine of this size is so after a script, of which each line must be done. No other function owns
/// a machine, since to let one go takes most of the proof's time.
pub(crate) fn is_so_after(
    alloc: Global,
    limits: &Limits,
    script: &str,
    wanted: &[Want],
) -> Result<bool, Fail> {
    let mut log = MemSink::with_capacity(alloc, 256, Vec::new(alloc))?;
    let mut gui = Gui::open(alloc, limits)?;
    is_so_with(&mut gui, &mut log, script, wanted)
}

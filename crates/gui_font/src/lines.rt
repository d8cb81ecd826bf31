//! The lines of a text.
ghost use Rattle.std.specs.Prelude.{◌≡◌, ◌+◌, ◌*◌, ◌≤◌, ◌<◌, [], map, pos, ◌≤ℤ◌, MatchOption, IfSome, true};
ghost use Rattle.std.specs.Prelude.{◌⊎◌, ◌==◌, is_some, ◌||◌, if◌then◌else◌, length, option_map, Some};
ghost use Rattle.std.specs.Option.{ForSome};
ghost use Rattle.std.specs.Str.{chars};
ghost use Rattle.gui_base.specs.Area.{nat_of};
ghost use Rattle.text_defs.specs.Lines.{is_within, after_newline, height_of_lines};
ghost use Rattle.gui_font.specs.Sets.{face_in};
ghost use Rattle.gui_font.specs.Walks.{setting, line_of, bytes_left, IsCut, StartsWithNewline};

use crate::fonts::Fonts;
use crate::letters::first_char;
use text_defs::{Line, TextLook};

/// The lines of a text, from the first to the last.
#[derive(Drop)]
pub struct Lines<'a> {
    fonts: &'a Fonts,
    look: TextLook,
    most: Option<u32>,
    /// How many bytes the text has.
    len: usize,
    /// What is left of it, if a line is still to come.
    left: Option<&'a str>,
    ghost letter_fits: { look.letter ≤ 100 },
    ghost short: { len ≤ 1000 },
    ghost within: { bytes_left left ≤ len },
}

/// A line with its characters: the first `count` of `text`.
#[derive(Clone, Copy)]
pub struct Run<'a> {
    pub line: Line,
    pub text: &'a str,
    pub count: u32,
}

impl Fonts {
    ghost use Rattle.gui_font.specs.LinesLeft.{lines_left, runs_left, setting_of};
    ghost use Rattle.text_defs.specs.Lines.{lines, measured};

    /// The lines of a text that is set so, in at most `width` pixels, or of one character if no more fit.
    /// Without a width they end at newlines alone. A text of n bytes takes time in proportion to n.
    pub fn lines<'a>(&'a self, look: TextLook, text: &'a str, width: Option<i32>) -> Lines<'a>
        requires letter { look.letter ≤ 100 }
        requires short { length text.now ≤ 1000 }
        requires width { ForSome width (λ w. pos 0 ≤ℤ w) }
        ensures lines { let s = setting (face_in self.now look.font) look (option_map nat_of width) in
            lines_left result ≡ map (line_of s) (lines s (chars text.now)) }
        ensures runs { let s = setting (face_in self.now look.font) look (option_map nat_of width) in
            runs_left result ≡ lines s (chars text.now) }
        ensures setting { let most = option_map nat_of width in
            setting_of result ≡ setting (face_in self.now look.font) look most }
    {
        Lines {
            fonts: self,
            look,
            most: most_pixels(width),
            len: text.len(),
            left: Some(text),
        }
    }

    /// The widest run of a text that is set so, and the height of its lines, in pixels.
    pub fn measure(&self, look: TextLook, text: &str, width: Option<i32>) -> (i32, i32)
        requires letter { look.letter ≤ 100 }
        requires line { look.line ≤ 100 }
        requires short { length text.now ≤ 1000 }
        requires width { ForSome width (λ w. pos 0 ≤ℤ w) }
        ensures size { let s = setting (face_in self.now look.font) look (option_map nat_of width) in
            let size = measured s look.line (chars text.now) in result ≡ (pos size.0, pos size.1) }
        ensures small { (result.0 ≤ℤ pos 355000) × (result.1 ≤ℤ pos 355255) }
    {
        let mut widest = 0_u32;
        let mut count = 0_u32;
        let mut lines = self.lines(look, text, width);
        'lines: while let Some(run) = lines.next_run() {
            widest = widest.max(pixels(run.line.width));
            count += 1;
        }
        (
            widest as i32,
            height_of(count, self.height(look.font), look.line),
        )
    }
}

impl<'a> Lines<'a> {
    ghost use Rattle.gui_font.specs.LinesLeft.{runs_left, setting_of};
    ghost use Rattle.gui_font.specs.Runs.{GivesRun};

    /// The next line with its characters: `None` exactly if none is left.
    pub fn next_run(&mut self) -> Option<Run<'a>>
        ensures run { MatchOption result ((runs_left self.old ≡ []) × (runs_left self.new ≡ []))
            (λ run. GivesRun (setting_of self.old) (runs_left self.old) (runs_left self.new) run) }
        ensures small { IfSome result (λ run. (pos 0 ≤ℤ run.line.width) × (run.line.width ≤ℤ pos 355000)) }
        ensures same { setting_of self.new ≡ setting_of self.old }
    {
        let text = self.left?;
        let cut = first_line(self.fonts, self.look, self.most, text);
        let rest = cut.stop.rest;
        self.left = next_line(rest, cut.broken);
        Some(Run {
            line: Line {
                start: self.len - text.len(),
                end: self.len - rest.len(),
                width: cut.stop.width as i32,
            },
            text,
            count: cut.stop.count,
        })
    }
}

impl<'a> Iterator for Lines<'a> {
    ghost use Rattle.gui_font.specs.LinesLeft.{lines_left};
    ghost use Rattle.std.specs.Iterator.{YieldsFirst, item_count};

    type Item = Line;

    ghost next_gives = { YieldsFirst lines_left };

    ghost remaining = { item_count lines_left };

    fn next(&mut self) -> Option<Line> {
        let run = self.next_run()?;
        Some(run.line)
    }
}

/// How high so many lines are, with so many pixels between each two.
fn height_of(count: u32, height: u8, gap: u8) -> i32
    requires some { 1 ≤ count }
    requires few { count ≤ 1001 }
    requires gap { gap ≤ 100 }
    ensures value { result ≡ pos (height_of_lines height gap count) }
    ensures small { result ≤ℤ pos 355255 }
{
    let height = u32::from(height);
    let gap = u32::from(gap);
    (count * height + (count - 1) * gap) as i32
}

/// A width that is not below 0, as a number.
pub(crate) fn pixels(width: i32) -> u32
    requires { pos 0 ≤ℤ width }
    ensures { result ≡ nat_of width }
{
    width.unsigned_abs()
}

/// A width that is not below 0 as a number, if there is a width.
fn most_pixels(width: Option<i32>) -> Option<u32>
    requires { ForSome width (λ w. pos 0 ≤ℤ w) }
    ensures { result ≡ option_map nat_of width }
{
    match width {
        None => None,
        Some(width) => Some(pixels(width)),
    }
}

/// What is left of a text after a line: all, or what stands after a newline, if one is there.
fn next_line(rest: &str, broken: bool) -> Option<&str>
    requires { broken ≡ true ⊎ StartsWithNewline (chars rest.now) }
    ensures left { option_map (λ t. chars t.now) result
        ≡ (if broken then Some (chars rest.now) else after_newline (chars rest.now)) }
    ensures bytes { IfSome result (λ t. length t.now + (if broken then 0 else 1) ≡ length rest.now) }
{
    if broken {
        return Some(rest);
    }
    let (_, rest) = first_char(rest)?;
    Some(rest)
}

/// The run up to a place in a text: how many characters it has, its width, and the text after it.
#[derive(Clone, Copy)]
struct Stop<'a> {
    count: u32,
    width: u32,
    rest: &'a str,
}

/// The first line of a text: where its run ends, and whether the text goes on before the next newline.
#[derive(Drop)]
struct Cut<'a> {
    stop: Stop<'a>,
    broken: bool,
}

/// The first line of a text, set in at most so many pixels. It takes one scan of the line and of the word
/// after it.
fn first_line<'a>(fonts: &Fonts, look: TextLook, most: Option<u32>, text: &'a str) -> Cut<'a>
    requires letter { look.letter ≤ 100 }
    requires short { length text.now ≤ 1000 }
    ensures { IsCut (setting (face_in fonts.now look.font) look most) (chars text.now) (length text.now)
        result.stop.count result.stop.width result.stop.rest.now result.broken }
{
    let mut stop = Stop {
        count: 0,
        width: 0,
        rest: text,
    };
    let mut space = None;
    'letters: while let Some((c, rest)) = first_char(stop.rest) {
        if c == '\n' {
            break;
        }
        let advance = fonts.advance(look.font, c);
        let width = wider(stop.width, stop.count, look.letter, advance);
        if !fits(stop.count, width, most) {
            let stop = last_space(space, stop);
            return Cut { stop, broken: true };
        }
        let next = Stop {
            count: stop.count + 1,
            width,
            rest,
        };
        space = noted(c, next, space);
        stop = next;
    }
    Cut {
        stop,
        broken: false,
    }
}

/// The width of a run with one character more.
fn wider(width: u32, count: u32, letter: u8, advance: u8) -> u32
    requires count { count ≤ 1000 }
    requires width { width ≤ 355 * count }
    requires letter { letter ≤ 100 }
    ensures value { result ≡ width + advance + (if count == 0 then 0 else letter) }
    ensures small { result ≤ 355 * (count + 1) }
{
    let gap = if count == 0 { 0 } else { u32::from(letter) };
    width + u32::from(advance) + gap
}

/// Whether one character more fits: the first one does.
fn fits(count: u32, width: u32, most: Option<u32>) -> bool
    ensures { result ≡ (count == 0 || is_within most width) }
{
    match most {
        None => true,
        Some(most) => count == 0 || width <= most,
    }
}

/// The last space, or else the end of the run.
fn last_space<'a>(space: Option<Stop<'a>>, stop: Stop<'a>) -> Stop<'a>
    ensures { Some result ≡ (if is_some space.entry then space.entry else Some stop.entry) }
{
    match space {
        None => stop,
        Some(stop) => stop,
    }
}

/// The last space of a run whose last character is given.
fn noted<'a>(c: char, stop: Stop<'a>, space: Option<Stop<'a>>) -> Option<Stop<'a>>
    ensures { result ≡ (if c == 32 then Some stop.entry else space.entry) }
{
    if c == ' ' { Some(stop) } else { space }
}

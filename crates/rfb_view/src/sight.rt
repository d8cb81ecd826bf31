//! What a viewer was told of a picture, and what of the picture is news.
ghost use Rattle.std.specs.Prelude.{◌≡◌, ◌+◌, ◌*◌, ◌≤◌, ◌<◌, ◌==◌, length, true, pos, IfOk, OnOk, OnErr};
ghost use Rattle.std.specs.Io.KnownBytes.{Appends};
ghost use Rattle.gui_base.specs.Area.{area_at, is_within};
ghost use Rattle.gui_base.specs.Corners.{rect_of};
ghost use Rattle.gui_color.specs.Buffer.{no_pixel};
ghost use Rattle.gui_edge.specs.Causes.{HasCause};
ghost use Rattle.gui_edge.specs.Sink.{AppendsPrefix};
ghost use Rattle.session_defs.specs.Formats.{is_format, number};
ghost use Rattle.session_defs.specs.Updates.{in_format, asked, is_number, known_at, news_area, answered};
ghost use Rattle.rfb_view.specs.Blocks.{block_area};
ghost use Rattle.rfb_view.specs.Sights.{untold, with_untold, IsSight, area_due, told, told_run};

use crate::block::{Block, block_of};
use crate::pixels::number;
use crate::update::put_update;
use gui_base::{Area, NoMemory, Rgb565};
use gui_edge::{Failed, Sink};
use session_defs::{Channel, Format};
use std::alloc::Global;
use std::marker::Model;

/// The format in which a session begins: sixteen bits, low byte first, of which red has five, green six and
/// blue five.
const OWN: Format = Format {
    bits: 16,
    big: false,
    red: Channel {
        most: 31,
        shift: 11,
    },
    green: Channel { most: 63, shift: 5 },
    blue: Channel { most: 31, shift: 0 },
};

/// What a viewer was told of the pixels of a panel, and what it waits for. For each pixel it keeps the colour
/// that was last sent, and none that was sent in another format than the one in force.
#[derive(Drop)]
pub struct Sight {
    format: Format,
    sent: Vec<Option<Rgb565>>,
    request: Option<Area>,
    pub ghost ready: { is_format format ≡ true },
}

impl Model for Sight {
    ghost use Rattle.std.specs.Prelude.{map, option_map};
    ghost use Rattle.gui_base.specs.Corners.{rect_of};
    ghost use Rattle.session_defs.specs.Formats.{number};
    ghost use Rattle.session_defs.specs.Updates.{Sight as Told};

    ghost Value = { Told };

    ghost view = { λ s. record {
      format = s.format;
      sent = map (option_map (number s.format)) s.sent.items;
      request = option_map rect_of s.request;
    } };
}

/// The area with no pixel.
fn no_pixel() -> Area
    ensures { rect_of result ≡ no_pixel }
{
    Area {
        x1: 0,
        y1: 0,
        x2: -1,
        y2: -1,
    }
}

/// Whether two colours have the same number. Most pixels stay as they were, and need none.
#[tactic(auto, using(crate::proofs::Lines::same_number))]
fn is_same(format: Format, sent: Rgb565, color: Rgb565) -> bool
    requires { is_format format ≡ true }
    ensures { result ≡ (number format sent == number format color) }
{
    sent == color || number(format, sent) == number(format, color)
}

impl Sight {
    /// Nothing was told of so many pixels, and no request is open.
    #[tactic(auto, using(crate::proofs::Lines::forgotten))]
    pub fn open(alloc: Global, pixels: usize) -> Result<Sight, NoMemory>
        ensures { IfOk result (λ sight. sight ≡ untold pixels) }
    {
        match vec![in alloc; None; pixels] {
            Ok(sent) => Ok(Sight {
                format: OWN,
                sent,
                request: None,
            }),
            Err(_) => Err(NoMemory),
        }
    }

    /// From now on the viewer wants this format. Nothing counts as sent in it, and no request is open.
    #[tactic(auto, using(crate::proofs::Lines::forgotten))]
    pub fn set_format(&mut self, format: Format)
        requires { is_format format ≡ true }
        ensures { self.new ≡ in_format format self.old }
    {
        self.sent.fill(None);
        self.format = format;
        self.request = None;
    }

    /// The viewer asks for the pixels of an area, in the place of what it asked for before. An empty area only
    /// closes that request.
    pub fn ask(&mut self, area: Area)
        ensures { self.new ≡ asked (rect_of area) self.old }
    {
        self.request = if area.is_empty() { None } else { Some(area) };
    }

    /// The least area that holds what is news of an area: the pixels whose colour has another number than was
    /// last sent, or for which none was sent. `colors` are those of the panel, row by row.
    pub fn news_area(&self, width: u16, height: u16, colors: &[Rgb565], area: Area) -> Area
        requires each { length colors.now ≡ width * height }
        requires known { length self.now.sent ≡ width * height }
        requires inside { is_within (area_at (pos 0) (pos 0) width height) (rect_of area) ≡ true }
        ensures { rect_of result ≡ news_area width colors.now self.now (rect_of area) }
    {
        let block = block_of(width, height, area);
        let mut news = no_pixel();
        for line in 0..block.lines {
            news = self.join_news(news, width, colors, block, block.top + line);
        }
        news
    }

    /// An area with the pixels of a line that are news, in the columns of a block.
    fn join_news(
        &self,
        mut news: Area,
        width: u16,
        colors: &[Rgb565],
        block: Block,
        line: u16,
    ) -> Area
        requires known { length self.now.sent ≡ length colors.now }
        requires wide { block.left + block.columns ≤ width }
        requires high { line * width + width ≤ length colors.now }
        ensures { rect_of result ≡
            with_untold width self.now colors.now (line * width + block.left) block.columns (rect_of news) }
    {
        let left = block.left;
        let first = usize::from(line) * usize::from(width) + usize::from(left);
        for column in 0..block.columns {
            let place = first + usize::from(column);
            if !self.was_told(place, colors[place]) {
                let (x, y) = (i32::from(left + column), i32::from(line));
                news = news.join(Area {
                    x1: x,
                    y1: y,
                    x2: x,
                    y2: y,
                });
            }
        }
        news
    }

    /// Whether the number of this colour was last sent for a pixel.
    #[tactic(auto, using(crate::proofs::Lines::known_is))]
    fn was_told(&self, place: usize, color: Rgb565) -> bool
        requires { place < length self.now.sent }
        ensures { result ≡ is_number (known_at self.now.sent place) (number self.now.format color) }
    {
        match self.sent[place] {
            None => false,
            Some(sent) => is_same(self.format, sent, color),
        }
    }

    /// The area that is to be sent now: that of the open request, or, if changes are wanted, the least one with
    /// what is news of it. It has no pixel if nothing is to be sent.
    fn area_due(&self, changes: bool, width: u16, height: u16, colors: &[Rgb565]) -> Area
        requires each { length colors.now ≡ width * height }
        requires ready { IsSight width height self.now }
        ensures { rect_of result ≡ area_due width colors.now changes self.now }
    {
        match self.request {
            None => no_pixel(),
            Some(area) => {
                if changes {
                    self.news_area(width, height, colors, area)
                } else {
                    area
                }
            }
        }
    }

    /// Answers the open request, if there is one: at once with its area, or, if changes are wanted, with what
    /// changed of it, if anything did. `colors` are those of the panel, row by row.
    pub fn answer<O: Sink>(
        &mut self,
        changes: bool,
        width: u16,
        height: u16,
        colors: &[Rgb565],
        out: &mut O,
    ) -> Result<(), Failed>
        requires few { width ≤ 1024 }
        requires each { length colors.now ≡ width * height }
        requires ready { IsSight width height self.old }
        ensures ready { OnOk result (IsSight width height self.new) }
        ensures sight { OnOk result (self.new ≡ (answered width colors.now changes self.old).sight) }
        ensures ok { OnOk result (Appends (O.state out.old).held (O.state out.new).held
            (answered width colors.now changes self.old).bytes) }
        ensures err { OnErr result (AppendsPrefix (O.state out.old).held (O.state out.new).held
            (answered width colors.now changes self.old).bytes) }
        ensures cause { HasCause (O.state out.old).faults (O.state out.new).faults result }
    {
        let area = self.area_due(changes, width, height, colors);
        if area.is_empty() {
            return Ok(());
        }
        let block = block_of(width, height, area);
        put_update(out, self.format, block, width, colors)?;
        self.tell(block, width, colors);
        Ok(())
    }

    /// The pixels of a block were sent, which closes the request.
    fn tell(&mut self, block: Block, width: u16, colors: &[Rgb565])
        requires known { length self.old.sent ≡ length colors.now }
        requires wide { block.left + block.columns ≤ width }
        requires high { (block.top + block.lines) * width ≤ length colors.now }
        ensures { self.new ≡ told width colors.now (block_area block) self.old }
    {
        for line in 0..block.lines {
            self.tell_line(block.first(width, line), usize::from(block.columns), colors);
        }
        self.request = None;
    }

    /// Some pixels of a line were sent.
    fn tell_line(&mut self, first: usize, count: usize, colors: &[Rgb565])
        requires known { length self.old.sent ≡ length colors.now }
        requires within { first + count ≤ length colors.now }
        ensures { self.new ≡ told_run first count colors.now self.old }
    {
        for place in first..first + count {
            self.sent[place] = Some(colors[place]);
        }
    }
}

//! What a turned panel shows, as a picture file.
ghost use Rattle.std.specs.Prelude.{◌≡◌, ◌<◌, OnOk, OnErr, IfSome, pos, take};
ghost use Rattle.std.specs.Io.KnownBytes.{Appends};
ghost use Rattle.gui_edge.specs.Causes.{HasCause};
ghost use Rattle.gui_edge.specs.Sink.{AppendsPrefix};
ghost use Rattle.panel_dcs.specs.DcsPanel.{IsReady, WritesShown};
ghost use Rattle.panel_dcs.specs.Turning.{turned, columns_of, pages_of, column_at, page_at, color_behind, line_shown};

use crate::bus::Bus;
use crate::turn::{Sizes, Turn};
use gui_base::Rgb565;
use gui_edge::ppm::{head, put_pixels};
use gui_edge::{Failed, Sink};

/// The most pixels of a line of a panel, and how many bytes of a file they are.
const LINE: usize = 1024;

const LINE_BYTES: usize = 3 * LINE;

/// The column of a pixel.
fn column_of(sizes: Sizes, x: u16, y: u16) -> u16
    requires x { x < sizes.width }
    requires y { y < sizes.height }
    ensures value { pos result ≡ column_at (turned sizes) (pos x) (pos y) }
    ensures inside { result < columns_of (turned sizes) }
{
    match sizes.turn {
        Turn::Upright => x,
        Turn::Quarter => sizes.height - 1 - y,
        Turn::Half => sizes.width - 1 - x,
        Turn::ThreeQuarters => y,
    }
}

/// The page of a pixel.
fn page_of(sizes: Sizes, x: u16, y: u16) -> u16
    requires x { x < sizes.width }
    requires y { y < sizes.height }
    ensures value { pos result ≡ page_at (turned sizes) (pos x) (pos y) }
    ensures inside { result < pages_of (turned sizes) }
{
    match sizes.turn {
        Turn::Upright => y,
        Turn::Quarter => x,
        Turn::Half => sizes.height - 1 - y,
        Turn::ThreeQuarters => sizes.width - 1 - x,
    }
}

/// The colour that the controller holds behind a pixel.
fn color_behind<B: Bus>(bus: &B, sizes: Sizes, x: u16, y: u16) -> Rgb565
    requires ready { IsReady (turned sizes) (B.state bus.now) }
    requires x { x < sizes.width }
    requires y { y < sizes.height }
    ensures { IfSome (B.state bus.now).chip
        (λ chip. result ≡ color_behind (turned sizes) chip.memory (pos x) (pos y)) }
{
    bus.peek(column_of(sizes, x, y), page_of(sizes, x, y))
}

/// The colours behind a line of the panel, and black after them.
fn line_behind<B: Bus>(bus: &B, sizes: Sizes, y: u16) -> [Rgb565; LINE]
    requires ready { IsReady (turned sizes) (B.state bus.now) }
    requires y { y < sizes.height }
    ensures { IfSome (B.state bus.now).chip
        (λ chip. take sizes.width result ≡ line_shown (turned sizes) chip.memory y) }
{
    let mut line = [Rgb565::BLACK; LINE];
    for x in 0..sizes.width {
        line[usize::from(x)] = color_behind(bus, sizes, x, y);
    }
    line
}

/// Writes the file of what a panel shows, line by line, or, if the sink fails, a prefix of it.
pub(crate) fn write_shown<F: Sink, B: Bus>(
    frames: &mut F,
    bus: &B,
    sizes: Sizes,
) -> Result<(), Failed>
    requires { IsReady (turned sizes) (B.state bus.now) }
    ensures ok { OnOk result (WritesShown (turned sizes) (B.state bus.now).chip
        (Appends (F.state frames.old).held (F.state frames.new).held)) }
    ensures err { OnErr result (WritesShown (turned sizes) (B.state bus.now).chip
        (AppendsPrefix (F.state frames.old).held (F.state frames.new).held)) }
    ensures cause { HasCause (F.state frames.old).faults (F.state frames.new).faults result }
{
    frames.put(head(sizes.width, sizes.height).as_slice())?;
    let mut bytes = [0; LINE_BYTES];
    for y in 0..sizes.height {
        let line = line_behind(bus, sizes, y);
        put_pixels(frames, &mut bytes, &line[..usize::from(sizes.width)])?;
    }
    Ok(())
}

//! Writes the records of a stream.
ghost use Rattle.std.specs.Prelude.{◌≡◌, ◌*◌, ◌<◌, ◌≤◌, ◌+◌, ◌^◌, ◌++◌, ◌∷◌, [], length, take, OnOk, OnErr};
ghost use Rattle.std.specs.Io.KnownBytes.{Appends};
ghost use Rattle.arrayvec.specs.ArrayVec.{array_vec_len};
ghost use Rattle.gui_base.specs.Area.{Rect, nat_of, width_of, height_of};
ghost use Rattle.gui_base.specs.Corners.{rect_of};
ghost use Rattle.gui_color.specs.Buffer.{IsWhole};
ghost use Rattle.gui_edge.specs.Causes.{HasCause};
ghost use Rattle.gui_edge.specs.Sink.{AppendsPrefix};
ghost use Rattle.panel_stream.specs.StreamPanel.{IsInside};
ghost use Rattle.panel_stream.specs.Viewer.{two_bytes, color_bytes, sizes_bytes, head_bytes, area_bytes};

use arrayvec::ArrayVec;
use gui_base::{Area, Rgb565};
use gui_color::DrawBuf;
use gui_edge::{Failed, Sink};

/// How many colours are written at once, and how many bytes they are.
const PIECE: usize = 2048;

const PIECE_BYTES: usize = 2 * PIECE;

/// The bytes of a number or of a colour, high byte first.
fn two_bytes(n: u16) -> [u8; 2]
    ensures { result ≡ two_bytes n }
{
    n.to_be_bytes()
}

/// The record of the sizes of a picture.
pub(crate) fn sizes_bytes(width: u16, height: u16) -> [u8; 5]
    ensures { result ≡ sizes_bytes width height }
{
    let [a, b] = two_bytes(width);
    let [c, d] = two_bytes(height);
    [b'S', a, b, c, d]
}

/// What a record of an area begins with.
fn head_bytes(area: Area) -> [u8; 9]
    requires { IsInside (rect_of area) }
    ensures { result ≡ head_bytes (rect_of area) }
{
    let [a, b] = two_bytes(area.x1 as u16);
    let [c, d] = two_bytes(area.y1 as u16);
    let [e, f] = two_bytes(area.width() as u16);
    let [g, h] = two_bytes(area.height() as u16);
    [b'A', a, b, c, d, e, f, g, h]
}

/// Writes the bytes of the colours, two for each, to the beginning of `bytes`.
fn fill_bytes(bytes: &mut [u8], colors: &[Rgb565])
    requires { 2 * length colors.now ≤ length bytes.old }
    ensures { take (2 * length colors.now) bytes.new ≡ color_bytes colors.now }
{
    for (i, color) in colors.iter().enumerate() {
        let [high, low] = two_bytes(color.0);
        let at = 2 * i;
        bytes[at] = high;
        bytes[at + 1] = low;
    }
}

/// Puts the bytes of some colours, or, if the sink fails, a prefix of them. `bytes` has room for them.
fn put_colors<T: Sink>(out: &mut T, bytes: &mut [u8], colors: &[Rgb565]) -> Result<(), Failed>
    requires { 2 * length colors.now ≤ length bytes.old }
    ensures ok { OnOk result
        (Appends (T.state out.old).held (T.state out.new).held (color_bytes colors.now)) }
    ensures err { OnErr result
        (AppendsPrefix (T.state out.old).held (T.state out.new).held (color_bytes colors.now)) }
    ensures cause { HasCause (T.state out.old).faults (T.state out.new).faults result }
{
    fill_bytes(bytes, colors);
    out.put(&bytes[..2 * colors.len()])
}

/// Writes the record of a buffer's area with its colours, or, if the sink fails, a prefix of it.
pub(crate) fn write_area<T: Sink>(out: &mut T, buf: &DrawBuf) -> Result<(), Failed>
    requires { IsInside buf.now.area }
    ensures ok { OnOk result
        (Appends (T.state out.old).held (T.state out.new).held (area_bytes buf.now)) }
    ensures err { OnErr result
        (AppendsPrefix (T.state out.old).held (T.state out.new).held (area_bytes buf.now)) }
    ensures whole { IsWhole buf.now }
    ensures cause { HasCause (T.state out.old).faults (T.state out.new).faults result }
{
    let mut rest = buf.pixels();
    out.put(&head_bytes(buf.area()))?;
    let mut bytes = [0; PIECE_BYTES];
    while !rest.is_empty() {
        let (piece, later) = rest.split_at(rest.len().min(PIECE));
        put_colors(out, &mut bytes, piece)?;
        rest = later;
    }
    Ok(())
}

//! Lines of pixels, and how they are sent to a panel.
ghost use Rattle.std.specs.Prelude.{◌≡◌, ◌<◌, ◌≤◌, true, None, IsSome, IfOk, length, pos};
ghost use Rattle.gui_base.specs.Area.{area_at};
ghost use Rattle.gui_edge.specs.Panel.{CanStart};

use gui_base::{Area, NoMemory, Rgb565, Steps};
use gui_color::DrawBuf;
use gui_edge::{Panel, Polled};
use std::alloc::Global;
use std::sync::ledger::{Blank, Ledger};

/// A buffer with pixels of these colours, from one to four, side by side from a place on.
pub fn line<L: Ledger>(
    alloc: Global,
    x: u8,
    y: u8,
    colors: &[Rgb565],
    blank: Blank,
) -> Result<DrawBuf, NoMemory>
    requires some { 0 < length colors.now }
    requires few { length colors.now ≤ 4 }
    requires name { blank.name ≡ L.name }
    requires parts { blank.parts ≡ L.parts }
    requires share { 0 < blank.parts }
    ensures { IfOk result (λ buf. buf.area ≡ area_at (pos x) (pos y) (length colors.now) 1) }
{
    let (book, all) = blank.open::<L>();
    let mut steps = Steps::new(book, all);
    let mut buf = DrawBuf::open(alloc, 4)?;
    let (x, y) = (i32::from(x), i32::from(y));
    buf.begin(Area::at(x, y, colors.len() as u32, 1), &mut steps);
    buf.row_mut(y, x, x + colors.len() as i32 - 1)
        .copy_from_slice(colors);
    Ok(buf)
}

/// Whether the transfer in flight arrives, in at most so many polls.
fn arrives<P: Panel>(panel: &mut P, polls: u8) -> bool
    requires { IsSome (P.state panel.old).coming }
    ensures still { result ≡ true → (P.state panel.new).coming ≡ None }
    ensures width { (P.state panel.new).width ≡ (P.state panel.old).width }
    ensures height { (P.state panel.new).height ≡ (P.state panel.old).height }
    ensures limit { (P.state panel.new).limit ≡ (P.state panel.old).limit }
    ensures block { (P.state panel.new).block ≡ (P.state panel.old).block }
{
    for _ in 0..polls {
        match panel.poll() {
            Polled::NotYet => {}
            Polled::Ready(_) => return true,
            Polled::Failed(_) => return false,
        }
    }
    false
}

/// Sends a buffer, and tells whether all of it came through in at most so many polls.
pub fn send<P: Panel>(panel: &mut P, buf: DrawBuf, polls: u8) -> bool
    requires free { (P.state panel.old).coming ≡ None }
    requires area { CanStart (P.state panel.old) buf }
    ensures still { result ≡ true → (P.state panel.new).coming ≡ None }
    ensures width { (P.state panel.new).width ≡ (P.state panel.old).width }
    ensures height { (P.state panel.new).height ≡ (P.state panel.old).height }
    ensures limit { (P.state panel.new).limit ≡ (P.state panel.old).limit }
    ensures block { (P.state panel.new).block ≡ (P.state panel.old).block }
{
    panel.start(buf).is_ok() && arrives(panel, polls)
}

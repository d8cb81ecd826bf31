//! The panel in memory.
ghost use Rattle.std.specs.Prelude.{◌≡◌, ◌<◌, false, IfOk};
ghost use Rattle.gui_base.specs.Area.{is_empty, size_of};
ghost use Rattle.gui_base.specs.Corners.{rect_of};

use gui_base::{Area, Block, Rgb565, Steps};
use gui_color::DrawBuf;
use gui_edge::{Panel, Polled};
use rfb_view::ViewPanel;
use std::alloc::Global;
use std::marker::Brand;
use std::sync::ledger::{Blank, Ledger};
use std::test::Fail;

/// A buffer of two pixels that is black in an area.
fn black_buffer<L: Ledger>(alloc: Global, area: Area, blank: Blank) -> Result<DrawBuf, Fail>
    requires name { blank.name ≡ L.name }
    requires parts { blank.parts ≡ L.parts }
    requires share { 0 < blank.parts }
    requires some { is_empty (rect_of area) ≡ false }
    requires two { size_of (rect_of area) ≡ 2 }
    ensures { IfOk result (λ buf. buf.area ≡ rect_of area) }
{
    let (book, all) = blank.open::<L>();
    let mut steps = Steps::new(book, all);
    let mut buf = DrawBuf::open(alloc, 2)?;
    buf.begin(area, &mut steps);
    Ok(buf)
}

#[test]
fn a_panel_shows_what_it_is_sent(rt: HostRuntime) -> Result<(), Fail> {
    let alloc = rt.alloc();
    let mut panel = ViewPanel::new();
    assert!(rt; panel.pixels().is_empty());
    panel.open(alloc, 2, 2, 4, Block { w: 1, h: 1 })?;
    let line = black_buffer::<Brand>(alloc, Area::at(0, 1, 2, 1), Blank::new(1))?;
    assert!(rt; panel.start(line).is_ok());
    assert!(rt; matches!(panel.poll(), Polled::Ready(_)));
    let unsent = Rgb565(0xA5A5);
    assert_eq!(rt;
        panel.pixels(),
        [unsent, unsent, Rgb565(0), Rgb565(0)].as_slice()
    );
    assert_eq!(rt; panel.present(), Ok(()));
    Ok(())
}

//! A panel that writes each transfer to a stream as a record, and a mark at each frame. Who reads the stream's bytes has
//! what the panel shows, and needs nothing else: the bytes tell the sizes of the picture, and then each area that
//! changes, with its colours.
#![tactic(auto)]

ghost use Rattle.panel_stream.specs.Examples.{StreamIsWorked};
ghost use Rattle.panel_stream.specs.Laws.{ViewersSee};

pub mod steady;
pub mod stream_panel;
mod writing;

pub use steady::Steady;
pub use stream_panel::StreamPanel;

/// A law, of which nothing is computed: if a viewer who replays a stream has a panel's sizes, what the panel
/// shows are the viewer's pixels.
pub fn viewers_see()
    ensures { ViewersSee }
{}

/// A law, of which nothing is computed: a stream that was worked out by hand comes to the picture that it should.
pub fn worked_stream()
    ensures { StreamIsWorked }
{}

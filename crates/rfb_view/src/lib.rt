//! A session with a viewer over the RFB protocol, version 3.8. It hears byte by byte what a viewer says, and
//! writes pixels as the numbers of the viewer's format. A panel in memory keeps the picture.
#![tactic(auto)]

mod block;
mod bytes;
mod canvas;
pub mod greeting;
pub mod hearing;
pub mod messages;
pub mod pixels;
mod run;
mod running;
pub mod sight;
pub mod status;
pub mod talk;
mod update;
pub mod view_panel;
pub mod viewed;
pub mod words;

pub use hearing::Hearing;
pub use messages::Message;
pub use running::run_session;
pub use session_defs::RfbBad;
pub use sight::Sight;
pub use status::RfbStatus;
pub use talk::Talk;
pub use view_panel::ViewPanel;
pub use viewed::Viewed;
pub use words::{Settings, settings_of};

//! The top call of a session with a viewer over the RFB protocol.
#![tactic(auto)]

mod screen;
mod top;

pub use screen::Screen;
pub use top::run_rfb;

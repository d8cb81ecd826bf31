//! The top call for hosts: a scene whose panel is a stream of what is sent, and whose questions are answered.
#![tactic(auto)]

mod asked;
mod asker;
mod host;
mod reading;
mod top;

pub use asked::run_asked;
pub use top::{HostEnd, run_host};

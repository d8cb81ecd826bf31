//! The top call: from the words and the script to the log and the frames.
#![tactic(auto)]

mod answer;
pub mod laws;
mod made;
mod reading;
mod runner;
mod status;
mod top;

pub use answer::{LogLine, is_noted, make, refresh_counted, reply_text};
pub use made::run_made;
pub use runner::Runner;
pub use status::Status;
pub use top::run_scene;

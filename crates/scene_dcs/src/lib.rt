//! The top call over a turned panel behind a controller.
#![tactic(auto)]

mod top;

pub use top::run_dcs;

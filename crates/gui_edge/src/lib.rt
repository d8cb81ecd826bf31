//! The outside: where a script comes from, where the log goes, and the panel. Each is a trait. Sources, sinks
//! and panels in memory can be told to fail, and adapters stand for readers and writers of std.
#![tactic(auto)]

pub mod fault_plan;
pub mod panel;
pub mod ppm;
pub mod screen;
pub mod sim_panel;
pub mod sink;
pub mod source;
pub mod text;

pub use fault_plan::FaultPlan;
pub use panel::{OpenFault, Panel, Polled};
pub use sim_panel::{SimPanel, SimPlan};
pub use sink::{MemSink, Sink, StdSink, Unheard};
pub use source::{MemSource, Source, StdSource};

/// A call on the outside failed. The object's count of faults rose in that call.
#[derive(Clone, Copy, Debug, PartialEq, Eq)]
pub struct Failed;

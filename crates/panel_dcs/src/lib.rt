//! A panel behind a controller that takes command bytes and data bytes, turned on its device by quarters of a turn.
//! The controller is this project's own, with a few command numbers of the display command set; its rules are
//! definitions, and buses in memory hold one. A panel over any bus sends a slice row by row of the device.
#![tactic(auto)]

ghost use Rattle.panel_dcs.specs.Examples.{TransfersAreWorked};
ghost use Rattle.panel_dcs.specs.Laws.{MemoryIsAsShown};

pub mod bus;
pub mod chip;
pub mod dcs_panel;
mod picture;
mod row;
pub mod sim_bus;
mod transfer;
pub mod turn;

pub use bus::Bus;
pub use chip::{Sent, Window};
pub use dcs_panel::DcsPanel;
pub use sim_bus::{LogBus, SimBus};
pub use turn::{Turn, turn_of};

/// A law, of which nothing is computed: transfers that were worked out by hand come to the memory that they should.
pub fn worked_transfers()
    ensures { TransfersAreWorked }
{}

/// A law, of which nothing is computed: what a turned panel shows tells what its controller's memory holds. If
/// a call of the panel leaves what it shows outside an area, it leaves the memory outside the turned area. If
/// the area shows a buffer's colours, the memory has them at their turned places.
pub fn memory_is_as_shown()
    ensures { MemoryIsAsShown }
{}

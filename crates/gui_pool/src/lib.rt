//! Containers whose memory depends on the number of values that they may hold, which is settled at opening.
//!
//! A [`Slab`] numbers its slots itself. A [`Table`] has a value for each of its keys, and [`Lists`] a list
//! of values for each of its owners. [`Chains`] keep texts.
//!
//! Each takes all its memory when it is opened. From then on no call takes memory: a value finds a spare slot,
//! or is handed back if none is left.
#![tactic(auto)]

mod block;
mod buckets;
mod chains;
mod entry;
mod lists;
mod raw;
mod slab;
mod table;

pub use block::NoMemory;
pub use chains::{Chains, NoChunks, TextId};
pub use lists::{ListIter, Lists};
pub use slab::Slab;
pub use table::Table;

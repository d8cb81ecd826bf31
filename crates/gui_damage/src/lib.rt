//! The areas of a panel that are pending: a short list of areas whose pixels are to be sent.
#![tactic(auto)]

mod area_list;
mod damage;
pub mod laws;
mod pairs;

pub use damage::Damage;

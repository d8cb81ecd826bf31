//! Mixing colours, and the buffer that pixels are drawn into.
#![tactic(auto)]

pub mod buffer;
mod ends;
mod lanes;
pub mod masks;
pub mod mixing;
pub mod row;

pub use buffer::{DrawBuf, place_of};
pub use masks::{mask_bit, mask_row, mix_row};
pub use mixing::{combine, mix};
pub use row::fill_row;

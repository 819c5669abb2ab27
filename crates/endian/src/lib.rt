// Numbers in bytes, little-endian, and zero bytes: read, written, tested.
#![tactic(auto)]

mod number;
pub mod zeros;

pub use number::{Number, lies_within, read, write};

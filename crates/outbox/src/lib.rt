// What goes out: the messages of an operation, counted and put.
#![tactic(auto)]

mod outgoing;
mod put;

pub use outgoing::{Sending, row_items};

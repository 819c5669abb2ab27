// What the store holds at one place: a link, a number of the head, an inbox's message; and the guess at the next link.
#![tactic(auto)]

pub mod head;
mod inbox;
pub mod links;
pub mod stride;

pub use inbox::message;

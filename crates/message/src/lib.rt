// The six kinds of message that nodes send, what every message bears besides, and in specs/ the rows beside a Table. How
// they stand in bytes is the crate `record`, what a node does with them the crate `protocol`.
#![tactic(auto)]

use item::{Attempt, Incarnation, Item};

// A message, with the fields of its kind and no others. `other` is an incarnation that is not the sender's: in
// Confirm the one under which the addressee answered Stored, in Stored, Confirmed and Table that of the request's
// sender. Stored, Confirm and Confirmed bear the attempt and item of the Store that they belong to. The rows of a
// Table travel in an array beside it.
#[derive(Clone, Copy, PartialEq, Eq)]
pub enum Message {
    Store {
        attempt: Attempt,
        item: Item,
    },
    Stored {
        other: Incarnation,
        attempt: Attempt,
        item: Item,
    },
    Confirm {
        other: Incarnation,
        attempt: Attempt,
        item: Item,
    },
    Confirmed {
        other: Incarnation,
        attempt: Attempt,
        item: Item,
    },
    Fetch,
    Table {
        other: Incarnation,
    },
}

// A message with the numbers of its sender and addressee and the sender's incarnation.
#[derive(Clone, Copy, PartialEq, Eq)]
pub struct Envelope {
    pub sender: usize,
    pub addressee: usize,
    pub incarnation: Incarnation,
    pub message: Message,
}

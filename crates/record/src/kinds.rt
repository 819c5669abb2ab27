// The six kinds of message as numbers in a record, and the fields of one. A message is read from fields in `record_read`, and
// its fields and rows are made in `record_write`.
use item::{Attempt, Incarnation, Item};

// The number of each kind.
// Kept: an enum says the six a second time beside `message::Message`, and a record may have any byte here.
pub const STORE: u8 = 1;

pub const STORED: u8 = 2;

pub const CONFIRM: u8 = 3;

pub const CONFIRMED: u8 = 4;

pub const FETCH: u8 = 5;

pub const TABLE: u8 = 6;

// Every number of a record but next and the rows.
#[derive(Clone, Copy)]
pub struct Fields {
    pub kind: u8,
    pub sender: usize,
    pub addressee: usize,
    pub incarnation: Incarnation,
    pub other: Incarnation,
    pub attempt: Attempt,
    pub item: Item,
}

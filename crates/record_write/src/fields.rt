// What a message has in each field of its record.
// Kept: no `From<Envelope>`, which may stand only in the crate of `Fields` or of `Envelope`; writing is this crate's
// (docs/HOUSE.md).
ghost use Rattle.std.specs.Prelude.{◌≡◌};
ghost use Rattle.record.specs.Kind.{attempt_of, fields_of, item_of, kind_of, other_of};

use item::{Attempt, Incarnation, Item};
use message::{Envelope, Message};
use record::kinds::{CONFIRM, CONFIRMED, FETCH, Fields, STORE, STORED, TABLE};

// The kind of a message, and what it has in the fields that not every kind uses; 0 in those that its kind does not use.
#[tactic(auto, unfolding(record::specs::Kind::kind_of, record::specs::Kind::other_of, record::specs::Kind::attempt_of, record::specs::Kind::item_of))]
fn parts(message: Message) -> (u8, Incarnation, Attempt, Item)
    ensures kind { result.0 ≡ kind_of message }
    ensures other { result.1 ≡ other_of message }
    ensures attempt { result.2 ≡ attempt_of message }
    ensures item { result.3 ≡ item_of message }
{
    match message {
        Message::Store { attempt, item } => (STORE, Incarnation(0), attempt, item),
        Message::Stored {
            other,
            attempt,
            item,
        } => (STORED, other, attempt, item),
        Message::Confirm {
            other,
            attempt,
            item,
        } => (CONFIRM, other, attempt, item),
        Message::Confirmed {
            other,
            attempt,
            item,
        } => (CONFIRMED, other, attempt, item),
        Message::Fetch => (FETCH, Incarnation(0), Attempt(0), Item::zero()),
        Message::Table { other } => (TABLE, other, Attempt(0), Item::zero()),
    }
}

// What a message has in each field.
#[tactic(auto, unfolding(record::specs::Kind::fields_of))]
pub fn fields_of(envelope: Envelope) -> Fields
    ensures { result ≡ fields_of envelope }
{
    let (kind, other, attempt, item) = parts(envelope.message);
    Fields {
        kind,
        sender: envelope.sender,
        addressee: envelope.addressee,
        incarnation: envelope.incarnation,
        other,
        attempt,
        item,
    }
}

// The message that the fields of a record say, and whether they say one.
// Kept: no `TryFrom<Fields>`, which may stand only in the crate of `Fields` or of `Message`; reading is this crate's
// (docs/HOUSE.md).
ghost use Rattle.std.specs.Prelude.{◌≡◌};
ghost use Rattle.record.specs.Kind.{message_of, no_write};
ghost use Rattle.record_read.specs.Known.{is_known};

use item::{Attempt, Incarnation, Item};
use message::Message;
use record::kinds::{CONFIRM, CONFIRMED, FETCH, Fields, STORE, STORED, TABLE};

// Whether there is neither attempt nor item.
#[tactic(auto, unfolding(record::specs::Kind::no_write, item::specs::Counter::same_attempt, item::specs::Item::same_item, item::specs::Item::tags_agree))]
fn no_write(attempt: Attempt, item: Item) -> bool
    ensures { result ≡ no_write attempt item }
{
    attempt == Attempt(0) && item == Item::zero()
}

// The message that fields say, if its kind is known and what it does not use is 0.
#[tactic(auto, unfolding(record::specs::Kind::message_of, item::specs::Counter::same_incarnation))]
pub fn message_of(fields: Fields) -> Option<Message>
    ensures { result ≡ message_of fields }
{
    let Fields {
        kind,
        other,
        attempt,
        item,
        ..
    } = fields;
    let no_other = other == Incarnation(0);
    let no_write = no_write(attempt, item);
    match kind {
        STORE => no_other.then_some(Message::Store { attempt, item }),
        STORED => Some(Message::Stored {
            other,
            attempt,
            item,
        }),
        CONFIRM => Some(Message::Confirm {
            other,
            attempt,
            item,
        }),
        CONFIRMED => Some(Message::Confirmed {
            other,
            attempt,
            item,
        }),
        FETCH => (no_other && no_write).then_some(Message::Fetch),
        TABLE => no_write.then_some(Message::Table { other }),
        _ => None,
    }
}

// Whether the kind of fields is known and what it does not use is 0.
#[tactic(auto, unfolding(crate::specs::Known::is_known))]
pub fn is_known(fields: Fields) -> bool
    ensures { result ≡ is_known (message_of fields) }
{
    message_of(fields).is_some()
}

// Delivery of Store, decided by the view of its sender: a node that is Up stores it and answers Stored. The incarnation is
// the envelope's.
// Kept: the view is of the node, the incarnation of the envelope, attempt and item of the message; a struct of them would be
// built for this one call. A row has incarnation and attempt as fields of its own.
ghost use Rattle.std.specs.Prelude.{◌≡◌};
ghost use Rattle.protocol.specs.Storing.{store_verdict};
ghost use Rattle.storing.specs.Decisions.{store_decision};

use item::{Attempt, Incarnation, Item, Row, counters_earlier};
use message::Message;
use phase::is_up;
use protocol::{Refusal, Sends};
use sender_view::{Decision, NodeChange, SenderView, ok};

// What the row says to an item stored under these counters (refusals 12, 13, 10).
#[tactic(auto, unfolding(protocol::specs::Storing::store_verdict, item::specs::Item::same_item, item::specs::Item::tags_agree))]
fn store_verdict(
    row: Row,
    incarnation: Incarnation,
    attempt: Attempt,
    item: Item,
) -> Result<(), Refusal>
    ensures { result ≡ store_verdict row incarnation attempt item }
{
    if item.ranks_below(row.item) {
        return Err(Refusal::LowerRank);
    }
    if row.item.ranks_below(item) {
        return Ok(());
    }
    if item != row.item {
        return Err(Refusal::OtherTag);
    }
    if counters_earlier(incarnation, attempt, row.incarnation, row.attempt) {
        return Err(Refusal::Stale);
    }
    Ok(())
}

// Store: refused with 9, 12, 13 or 10; otherwise the sender's row takes the item, and Stored goes back.
#[tactic(auto, unfolding(crate::specs::Decisions::store_decision, crate::specs::Decisions::reply_decision))]
pub fn on_store(
    view: SenderView,
    incarnation: Incarnation,
    attempt: Attempt,
    item: Item,
) -> Result<Decision, Refusal>
    ensures { result ≡ store_decision view incarnation attempt item }
{
    if !is_up(view.phase) {
        return Err(Refusal::NotTaken);
    }
    store_verdict(view.row, incarnation, attempt, item)?;
    let row = Row {
        item,
        incarnation,
        attempt,
        marked: false,
    };
    let stored = Message::Stored {
        other: incarnation,
        attempt,
        item,
    };
    Ok(ok(NodeChange::Row(row), Sends::Back(stored)))
}

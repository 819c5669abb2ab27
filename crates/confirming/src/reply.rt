// Delivery of Confirm, decided by the view of its sender: a node that is Up answers Confirmed if its row is as the message
// says. The sender's incarnation is the envelope's.
ghost use Rattle.std.specs.Prelude.{◌≡◌};
ghost use Rattle.protocol.specs.Storing.{stored_under};
ghost use Rattle.confirming.specs.Decisions.{confirm_decision};

use item::{Attempt, Incarnation, Item, Row};
use message::Message;
use phase::is_up;
use protocol::{Refusal, Sends};
use sender_view::{Decision, NodeChange, SenderView, ok};

// Whether the row has this item, stored under these counters.
#[tactic(auto, unfolding(protocol::specs::Storing::stored_under, item::specs::Counter::same_incarnation, item::specs::Counter::same_attempt, item::specs::Item::same_item, item::specs::Item::tags_agree))]
fn stored_under(row: Row, incarnation: Incarnation, attempt: Attempt, item: Item) -> bool
    ensures { result ≡ stored_under row incarnation attempt item }
{
    row.item == item && row.incarnation == incarnation && row.attempt == attempt
}

// Confirm: refused with 9, or with 10 where the node has started since it stored or the sender's row has something
// else by now; otherwise Confirmed goes back.
// Kept: the view is of the node, the incarnation of the envelope, the rest of the message. A struct of that rest would stand in
// three kinds of `Message` and be taken apart in each definition and law of them; document 01 lists the fields one by one.
#[tactic(auto, unfolding(crate::specs::Decisions::confirm_decision, item::specs::Counter::same_incarnation))]
pub fn on_confirm(
    view: SenderView,
    incarnation: Incarnation,
    other: Incarnation,
    attempt: Attempt,
    item: Item,
) -> Result<Decision, Refusal>
    ensures { result ≡ confirm_decision view incarnation other attempt item }
{
    if !is_up(view.phase) {
        return Err(Refusal::NotTaken);
    }
    if other != view.incarnation || !stored_under(view.row, incarnation, attempt, item) {
        return Err(Refusal::Stale);
    }
    let confirmed = Message::Confirmed {
        other: incarnation,
        attempt,
        item,
    };
    Ok(ok(NodeChange::Nothing, Sends::Back(confirmed)))
}

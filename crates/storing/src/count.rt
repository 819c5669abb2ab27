// Delivery of Stored, decided by the view of its sender: at f of them a node that is Storing asks these f to confirm. The
// sender's incarnation is the envelope's.
ghost use Rattle.std.specs.Prelude.{◌≡◌};
ghost use Rattle.storing.specs.Decisions.{stored_decision};

use item::{Attempt, Incarnation, Item};
use phase::is_storing;
use protocol::{Refusal, Sends};
use sender_view::{Decision, NodeChange, SenderView, count_sender, ok, own_write};

// Stored: refused with 9, 10 or 11; otherwise the sender is counted: at f Confirming begins, and Confirm goes to exactly those
// asked.
// Kept: the view is of the node, the incarnation of the envelope, the rest of the message. A struct of that rest would stand in
// three kinds of `Message` and be taken apart in each definition and law of them; document 01 lists the fields one by one.
#[tactic(auto, unfolding(crate::specs::Decisions::stored_decision))]
pub fn on_stored(
    view: SenderView,
    incarnation: Incarnation,
    other: Incarnation,
    attempt: Attempt,
    item: Item,
) -> Result<Decision, Refusal>
    ensures { result ≡ stored_decision view incarnation other attempt item }
{
    if !is_storing(view.phase) {
        return Err(Refusal::NotTaken);
    }
    if !own_write(view, other, attempt, item) {
        return Err(Refusal::Stale);
    }
    let confirming = ok(
        NodeChange::Confirming(incarnation),
        Sends::Asked(view.attempt, view.own),
    );
    count_sender(view, incarnation, confirming)
}

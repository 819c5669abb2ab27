// Delivery of Confirmed, decided by the view of its sender: a node that is Confirming counts it, and at f of them its write has
// ended. The sender's incarnation is the envelope's.
ghost use Rattle.std.specs.Prelude.{◌≡◌};
ghost use Rattle.protocol.specs.Storing.{end_answer};
ghost use Rattle.confirming.specs.Decisions.{confirmed_decision};

use item::{Attempt, Incarnation, Item};
use phase::{is_confirming, is_returning};
use protocol::{Answer, Phase, Refusal, Sends};
use sender_view::{Decision, NodeChange, SenderView, count_sender, own_write};

// Confirmed: refused with 9, with 10 (also where the sender was not asked under this incarnation) or 11; otherwise
// the sender is counted: at f the write has ended, and the node is Up and Idle.
// Kept: the view is of the node, the incarnation of the envelope, the rest of the message. A struct of that rest would stand in
// three kinds of `Message` and be taken apart in each definition and law of them; document 01 lists the fields one by one.
#[tactic(auto, unfolding(crate::specs::Decisions::confirmed_decision, item::specs::Counter::same_incarnation))]
pub fn on_confirmed(
    view: SenderView,
    incarnation: Incarnation,
    other: Incarnation,
    attempt: Attempt,
    item: Item,
) -> Result<Decision, Refusal>
    ensures { result ≡ confirmed_decision view incarnation other attempt item }
{
    if !is_confirming(view.phase) {
        return Err(Refusal::NotTaken);
    }
    if !own_write(view, other, attempt, item) || view.asked != Some(incarnation) {
        return Err(Refusal::Stale);
    }
    let ended = Decision {
        answer: end_answer(view.phase, view.own),
        change: NodeChange::Ended,
        sends: Sends::Nothing,
    };
    count_sender(view, incarnation, ended)
}

// Accepted where the node was Returning, otherwise settled.
#[tactic(auto, unfolding(protocol::specs::Storing::end_answer))]
fn end_answer(phase: Phase, item: Item) -> Answer
    ensures { result ≡ end_answer phase item }
{
    if is_returning(phase) {
        return Answer::Accepted(item);
    }
    Answer::Settled(item)
}

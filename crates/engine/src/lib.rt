// The engine over one node by value: every event, and a message delivered by its kind. A message without rows is decided
// by the view of its sender, so that a decision moves no rows; a Table by the whole node.
#![tactic(auto)]

ghost use Rattle.std.specs.Prelude.{◌≡◌};
ghost use Rattle.protocol.specs.Answer.{step_after};
ghost use Rattle.protocol.specs.Deliver.{deliver_step};
ghost use Rattle.engine.specs.Decided.{decided};

use confirming::{on_confirm, on_confirmed};
use fetching::on_fetch;
pub use fetching::on_table;
use item::{Incarnation, Item};
use message::{Envelope, Message};
pub use node::fresh_node;
pub use node_calls::{crash, retry, start, write};
use protocol::{Node, Refusal, Step};
use sender_view::{Decision, SenderView, step_of, view_of};
use storing::{on_store, on_stored};

// What is decided of a message that is not refused: a decision by the view of its sender, or that it is a Table with this other
// incarnation, which the whole node decides.
#[derive(Clone, Copy)]
pub enum Decided {
    Change(Decision),
    Table(Incarnation),
}

// What is decided of a message of the sender with this view.
#[tactic(auto, unfolding(crate::specs::Decided::decided))]
pub fn decide(
    view: SenderView,
    incarnation: Incarnation,
    message: Message,
) -> Result<Decided, Refusal>
    ensures { result ≡ decided view incarnation message }
{
    let decision = match message {
        Message::Store { attempt, item } => on_store(view, incarnation, attempt, item)?,
        Message::Stored {
            other,
            attempt,
            item,
        } => on_stored(view, incarnation, other, attempt, item)?,
        Message::Confirm {
            other,
            attempt,
            item,
        } => on_confirm(view, incarnation, other, attempt, item)?,
        Message::Confirmed {
            other,
            attempt,
            item,
        } => on_confirmed(view, incarnation, other, attempt, item)?,
        Message::Fetch => on_fetch(view, incarnation)?,
        Message::Table { other } => return Ok(Decided::Table(other)),
    };
    Ok(Decided::Change(decision))
}

// What the node makes of a message. `items` are the rows of a Table; the other kinds do not look at them.
#[tactic(auto, unfolding(crate::specs::Decided::decided_step, protocol::specs::Answer::step_after, protocol::specs::Deliver::deliver_step))]
pub fn deliver(
    node: Node,
    envelope: Envelope,
    items: [Item; item::MAX_NODES],
) -> Result<Step, Refusal>
    ensures { step_after node result ≡ deliver_step node envelope items }
{
    let sender = envelope.sender;
    let incarnation = envelope.incarnation;
    let view = view_of(&node, sender);
    match decide(view, incarnation, envelope.message)? {
        Decided::Change(decision) => Ok(step_of(node, sender, decision)),
        Decided::Table(other) => on_table(node, sender, incarnation, other, items),
    }
}

// Delivery of Fetch, decided by the view of its sender: a node that is Up answers with its rows in a Table.
ghost use Rattle.std.specs.Prelude.{◌≡◌};
ghost use Rattle.fetching.specs.Decisions.{fetch_decision};

use item::Incarnation;
use message::Message;
use phase::is_up;
use protocol::{Refusal, Sends};
use sender_view::{Decision, NodeChange, SenderView, ok};

// Fetch: refused with 9 unless the node is Up; otherwise its rows go back in a Table.
#[tactic(auto, unfolding(crate::specs::Decisions::fetch_decision))]
pub fn on_fetch(view: SenderView, incarnation: Incarnation) -> Result<Decision, Refusal>
    ensures { result ≡ fetch_decision view incarnation }
{
    if !is_up(view.phase) {
        return Err(Refusal::NotTaken);
    }
    let table = Message::Table { other: incarnation };
    Ok(ok(NodeChange::Nothing, Sends::Back(table)))
}

// Delivery of Table to one node by value: a node that is Fetching counts it.
// Kept: sender and incarnation are of the envelope, the other incarnation of its message, the rows of the record beside it; a
// struct of them would be built for one call.
ghost use Rattle.std.specs.Prelude.{◌≡◌};
ghost use Rattle.protocol.specs.Answer.{step_after};
ghost use Rattle.protocol.specs.Fetching.{none_counted, with_table, on_table};

use crate::merge::merge_rows;
use crate::recover::table_counted;
use item::{Incarnation, Item};
use node::{count_peers, is_counted, with_counted, with_rows};
use phase::is_fetching;
use protocol::{Node, Refusal, Step};

// Table: refused with 9, 10 or 11; otherwise the sender's table is counted.
#[tactic(auto, unfolding(protocol::specs::Answer::step_after, protocol::specs::Fetching::on_table, item::specs::Counter::same_incarnation))]
pub fn on_table(
    node: Node,
    sender: usize,
    incarnation: Incarnation,
    other: Incarnation,
    items: [Item; item::MAX_NODES],
) -> Result<Step, Refusal>
    ensures { step_after node result ≡ on_table node sender incarnation other items }
{
    if !is_fetching(node.phase) {
        return Err(Refusal::NotTaken);
    }
    if other != node.incarnation {
        return Err(Refusal::Stale);
    }
    if is_counted(&node, sender) {
        return Err(Refusal::Counted);
    }
    let next = with_table(node, sender, incarnation, items);
    Ok(table_counted(next))
}

// The table of this sender is counted, and every row merged with its item.
#[tactic(auto, unfolding(protocol::specs::Fetching::with_table))]
fn with_table(
    node: Node,
    sender: usize,
    incarnation: Incarnation,
    items: [Item; item::MAX_NODES],
) -> Node
    ensures { result ≡ with_table node sender incarnation items }
{
    let merged = merge_rows(none_counted(&node), node.rows, &items);
    with_counted(with_rows(node, merged), sender, incarnation)
}

// Whether no table is counted yet.
#[tactic(auto, unfolding(protocol::specs::Fetching::none_counted))]
fn none_counted(node: &Node) -> bool
    ensures { result ≡ none_counted node.now }
{
    count_peers(&node.counted) == 0
}

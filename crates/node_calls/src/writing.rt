// Write of one node by value: the refusal, or the answer, the node afterwards and what it sends.
ghost use Rattle.std.specs.Prelude.{◌≡◌};
ghost use Rattle.protocol.specs.Answer.{step_after};
ghost use Rattle.protocol.specs.Write.{next_item, write_at_largest, written as written_node, write_step};

use crate::requests::send_store;
use item::{Item, Tag};
use node::{own_item, storing_begun};
use phase::is_up_idle;
use protocol::{Node, Phase, Refusal, Stage, Step};

// The index one above, with this tag.
#[tactic(auto, unfolding(protocol::specs::Write::next_item))]
fn next_item(item: Item, tag: Tag) -> Item
    ensures { result ≡ next_item item tag }
{
    Item {
        index: item.index.next(),
        tag,
    }
}

// Whether the own index or the attempt cannot rise.
#[tactic(auto, unfolding(protocol::specs::Write::write_at_largest))]
fn write_at_largest(node: Node) -> bool
    ensures { result ≡ write_at_largest node }
{
    own_item(&node).index.at_largest() || node.attempt.at_largest()
}

// The node when its write of the next item has begun.
#[tactic(auto, unfolding(protocol::specs::Write::written))]
fn written(node: Node, tag: Tag) -> Node
    ensures { result ≡ written_node node tag }
{
    let item = own_item(&node);
    let next = next_item(item, tag);
    let attempt = node.attempt.next();
    storing_begun(node, Phase::Up(Stage::Storing), attempt, next)
}

// Write: refused with 5 or 6; otherwise the next item is under way, and Store goes to all others.
#[tactic(auto, unfolding(protocol::specs::Answer::step_after, protocol::specs::Write::write_step))]
pub fn write(node: Node, tag: Tag) -> Result<Step, Refusal>
    ensures { step_after node result ≡ write_step node tag }
{
    if !is_up_idle(node.phase) {
        return Err(Refusal::WrongStage);
    }
    if write_at_largest(node) {
        return Err(Refusal::AtLargest);
    }
    Ok(send_store(written(node, tag)))
}

// Retry of one node by value: the refusal, or the answer, the node afterwards and what it sends.
ghost use Rattle.std.specs.Prelude.{◌≡◌};
ghost use Rattle.protocol.specs.Answer.{step_after};
ghost use Rattle.protocol.specs.Write.{retried as retried_node, nothing_to_retry, retry_step};

use crate::requests::{send_fetch, send_store};
use node::{own_item, storing_begun};
use phase::{at_stage, is_down, is_fetching, is_idle};
use protocol::{Node, Refusal, Stage, Step};

// The node when its write has begun again, with the same item under the next attempt.
#[tactic(auto, unfolding(protocol::specs::Write::retried))]
fn retried(node: Node) -> Node
    ensures { result ≡ retried_node node }
{
    let storing = at_stage(node.phase, Stage::Storing);
    let attempt = node.attempt.next();
    let item = own_item(&node);
    storing_begun(node, storing, attempt, item)
}

// Whether the node is Down or Idle.
#[tactic(auto, unfolding(protocol::specs::Write::nothing_to_retry))]
fn nothing_to_retry(node: Node) -> bool
    ensures { result ≡ nothing_to_retry node }
{
    is_down(node.phase) || is_idle(node.phase)
}

// Retry: refused with 5 or 6; otherwise Fetch goes to all others again, or Store does under the next attempt.
#[tactic(auto, unfolding(protocol::specs::Answer::step_after, protocol::specs::Write::retry_step))]
pub fn retry(node: Node) -> Result<Step, Refusal>
    ensures { step_after node result ≡ retry_step node }
{
    if nothing_to_retry(node) {
        return Err(Refusal::WrongStage);
    }
    if is_fetching(node.phase) {
        return Ok(send_fetch(node));
    }
    if node.attempt.at_largest() {
        return Err(Refusal::AtLargest);
    }
    Ok(send_store(retried(node)))
}

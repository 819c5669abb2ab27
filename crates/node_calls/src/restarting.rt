// Crash and Start of one node by value: the refusal, or the answer, the node afterwards and what it sends.
ghost use Rattle.std.specs.Prelude.{◌≡◌};
ghost use Rattle.protocol.specs.Answer.{step_after};
ghost use Rattle.protocol.specs.Write.{crash_step, start_step};

use crate::requests::send_fetch;
use crate::step::ok;
use node::{crashed, started};
use phase::is_down;
use protocol::{Node, Refusal, Sends, Step};

// Crash: refused with 5; otherwise the node is Down, and only number, n and incarnation remain.
#[tactic(auto, unfolding(protocol::specs::Answer::step_after, protocol::specs::Write::crash_step))]
pub fn crash(node: Node) -> Result<Step, Refusal>
    ensures { step_after node result ≡ crash_step node }
{
    if is_down(node.phase) {
        return Err(Refusal::WrongStage);
    }
    Ok(ok(crashed(node), Sends::Nothing))
}

// Start: refused with 5 or 6; otherwise the node is Fetching in its next incarnation, and Fetch goes to all others.
#[tactic(auto, unfolding(protocol::specs::Answer::step_after, protocol::specs::Write::start_step))]
pub fn start(node: Node) -> Result<Step, Refusal>
    ensures { step_after node result ≡ start_step node }
{
    if !is_down(node.phase) {
        return Err(Refusal::WrongStage);
    }
    if node.incarnation.at_largest() {
        return Err(Refusal::AtLargest);
    }
    Ok(send_fetch(started(node)))
}

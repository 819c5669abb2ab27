// What a node makes of a message without rows: the answer, what changes of the node, and what it sends.
ghost use Rattle.std.specs.Prelude.{◌≡◌, Ok};
ghost use Rattle.protocol.specs.Node.{with_counted, confirming_begun};
ghost use Rattle.protocol.specs.Phase.{at_stage};
ghost use Rattle.protocol.specs.declared.Stage.TheVariants as stage;
ghost use Rattle.sender_view.specs.Decision.{ok_with, sender_counted, changed as with_change, step_by};

use crate::view::SenderView;
use item::{Incarnation, Row};
use node::{confirming_begun, half, with_counted, with_row, write_ended};
use phase::at_stage;
use protocol::{Answer, Node, Refusal, Sends, Stage, Step};

// What changes of a node.
#[derive(Clone, Copy)]
pub enum NodeChange {
    Nothing,
    // The sender's row.
    Row(Row),
    // The sender is counted, under this incarnation.
    Counted(Incarnation),
    // The sender is counted, and with it Confirming begins.
    Confirming(Incarnation),
    // The write has ended.
    Ended,
}

// What a node makes of a message that it does not refuse.
#[derive(Clone, Copy)]
pub struct Decision {
    pub answer: Answer,
    pub change: NodeChange,
    pub sends: Sends,
}

// The answer "ok", with what changes and what is sent.
// Kept: beside `node_calls::ok`, for the reason that is given there.
pub fn ok(change: NodeChange, sends: Sends) -> Decision
    ensures { result ≡ ok_with change sends }
{
    Decision {
        answer: Answer::Ok,
        change,
        sends,
    }
}

// An answer of the sender to the node's own write: refused with 11; otherwise the sender is counted, and at f counted it is
// decided as `full` says.
#[tactic(auto, unfolding(crate::specs::Decision::sender_counted, crate::specs::View::below_half_in))]
pub fn count_sender(
    view: SenderView,
    incarnation: Incarnation,
    full: Decision,
) -> Result<Decision, Refusal>
    ensures { result ≡ sender_counted view incarnation full }
{
    if view.counted {
        return Err(Refusal::Counted);
    }
    if view.count < half(view.n) {
        return Ok(ok(NodeChange::Counted(incarnation), Sends::Nothing));
    }
    Ok(full)
}

// The sender is counted, and Confirming begins.
fn confirming(node: Node, sender: usize, incarnation: Incarnation) -> Node
    ensures { result ≡ confirming_begun (with_counted node sender incarnation) (at_stage node.phase stage.Confirming) }
{
    let next = with_counted(node, sender, incarnation);
    confirming_begun(next, at_stage(node.phase, Stage::Confirming))
}

// The node with what changes of it.
#[tactic(auto, unfolding(crate::specs::Decision::changed))]
pub fn changed(node: Node, sender: usize, change: NodeChange) -> Node
    ensures { result ≡ with_change node sender change }
{
    match change {
        NodeChange::Nothing => node,
        NodeChange::Row(row) => with_row(node, sender, row),
        NodeChange::Counted(incarnation) => with_counted(node, sender, incarnation),
        NodeChange::Confirming(incarnation) => confirming(node, sender, incarnation),
        NodeChange::Ended => write_ended(node),
    }
}

// The decision as a step of this node.
#[tactic(auto, unfolding(crate::specs::Decision::step_by))]
pub fn step_of(node: Node, sender: usize, decision: Decision) -> Step
    ensures { result ≡ step_by node sender (Ok decision) }
{
    Step {
        answer: decision.answer,
        node: changed(node, sender, decision.change),
        sends: decision.sends,
    }
}

// A step carried out: refused where too few records are free, or what it sends goes into the store.
// Kept: store, node and free records stay apart; a struct of them would hold two `&mut`, and each clause name its fields.
ghost use Rattle.sender_view.specs.Decision.{step_by};
ghost use Rattle.std.specs.Prelude.{Ok};
ghost use Rattle.event.specs.Act.{Gives, carried_out};

use outbox::Sending;
use protocol::{Answer, Node, Refusal, Step};
use sender_view::{Decision, step_of};

// The step of the node, where so many records are free; `back` is the sender of the message delivered. A refusal leaves
// everything as it was.
pub fn carry_out(
    s: &mut [u8],
    node: &mut Node,
    free: usize,
    back: usize,
    step: Step,
) -> Result<Answer, Refusal>
    ensures { Gives (carried_out node.old s.old free back step) result node.new s.new }
{
    if let Answer::Refused(why) = step.answer {
        return Err(why);
    }
    let sending = Sending {
        node: &step.node,
        sends: step.sends,
        back,
    };
    if free < sending.count() {
        return Err(Refusal::NoRoom);
    }
    sending.put_into(s);
    *node = step.node;
    Ok(step.answer)
}

// The decision of a node on a message of this sender, carried out.
pub fn carry_decision(
    s: &mut [u8],
    node: &mut Node,
    free: usize,
    sender: usize,
    decision: Decision,
) -> Result<Answer, Refusal>
    ensures { Gives (carried_out node.old s.old free sender (step_by node.old sender (Ok decision))) result node.new s.new }
{
    carry_out(s, node, free, sender, step_of(*node, sender, decision))
}

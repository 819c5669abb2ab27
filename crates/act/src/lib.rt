// An event at one node, with the lent store: everything that decides. Nothing here touches the table: whoever has it reads
// the node first and puts it back afterwards.
// Kept: store and node stay apart; a struct of them would hold two `&mut`, and each clause name its fields.
#![tactic(auto)]

ghost use Rattle.protocol.specs.Answer.{step_after};
ghost use Rattle.event.specs.Act.{Gives, at_node, on_sound};

use delivering::deliver_message;
use engine::{crash, retry, start, write};
use event::{carry_out, drop_message};
use message::Envelope;
use protocol::{Answer, Event, Node, Refusal, Step};
use store::Survey;

// The decision of node `k`, where the group has this node.
fn at_node(
    s: &mut [u8],
    seen: Survey,
    k: u64,
    decision: Result<Step, Refusal>,
    node: &mut Node,
) -> Result<Answer, Refusal>
    ensures { Gives (at_node node.old s.old seen k (step_after node.old decision)) result node.new s.new }
{
    if seen.n <= k as usize {
        return Err(Refusal::NoNode);
    }
    let step = decision?;
    carry_out(s, node, seen.free, k as usize, step)
}

// An event at its node, where store and table are sound: `seen` is what is found in the store, and `reading` the message in
// the event's record.
pub fn on_sound(
    s: &mut [u8],
    node: &mut Node,
    seen: Survey,
    reading: Option<Envelope>,
    event: Event,
) -> Result<Answer, Refusal>
    ensures { Gives (on_sound event node.old s.old seen reading) result node.new s.new }
{
    match event {
        Event::Write { node: k, tag } => at_node(s, seen, k, write(*node, tag), node),
        Event::Retry { node: k } => at_node(s, seen, k, retry(*node), node),
        Event::Crash { node: k } => at_node(s, seen, k, crash(*node), node),
        Event::Start { node: k } => at_node(s, seen, k, start(*node), node),
        Event::Drop { record } => drop_message(s, reading, record),
        Event::Deliver { record } => deliver_message(s, node, seen.free, reading, record),
    }
}

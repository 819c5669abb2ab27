// Delivery of the message in a record of the store.
// Kept: store, node and free records stay apart; a struct of them would hold two `&mut`, and each clause name its fields.
#![tactic(auto)]

ghost use Rattle.record.specs.Layout.{record_of, rows_of};
ghost use Rattle.protocol.specs.Fetching.{on_table};
ghost use Rattle.event.specs.Act.{Gives, carried_out, delivered};

use engine::{Decided, decide, on_table};
use event::{carry_decision, carry_out};
use item::Incarnation;
use message::Envelope;
use protocol::{Answer, Node, Refusal};
use sender_view::view_of;

// Delivery of the Table in record `r`, which the whole node decides.
#[tactic(auto, unfolding(protocol::specs::Answer::step_after))]
fn deliver_table(
    s: &mut [u8],
    node: &mut Node,
    free: usize,
    r: usize,
    sender: usize,
    incarnation: Incarnation,
    other: Incarnation,
) -> Result<Answer, Refusal>
    ensures { Gives (carried_out node.old s.old free sender (on_table node.old sender incarnation other (rows_of (record_of s.old r)))) result node.new s.new }
{
    let items = record_read::rows(s, r);
    let step = on_table(*node, sender, incarnation, other, items)?;
    carry_out(s, node, free, sender, step)
}

// Delivery of the message `reading` in record `r`, where so many records are free. Only the rows of a Table are read from
// the record.
#[tactic(auto, unfolding(engine::specs::Decided::decided_step, protocol::specs::Deliver::deliver_step))]
pub fn deliver_message(
    s: &mut [u8],
    node: &mut Node,
    free: usize,
    reading: Option<Envelope>,
    r: u64,
) -> Result<Answer, Refusal>
    ensures { Gives (delivered reading node.old s.old free r) result node.new s.new }
{
    let Some(envelope) = reading else {
        return Err(Refusal::NoMessage);
    };
    let sender = envelope.sender;
    let incarnation = envelope.incarnation;
    let view = view_of(node, sender);
    match decide(view, incarnation, envelope.message)? {
        Decided::Change(decision) => carry_decision(s, node, free, sender, decision),
        Decided::Table(other) => {
            deliver_table(s, node, free, r as usize, sender, incarnation, other)
        }
    }
}

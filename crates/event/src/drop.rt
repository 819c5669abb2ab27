// Drop of the message in a record. No node is read.
ghost use Rattle.std.specs.Prelude.{◌≡◌};
ghost use Rattle.protocol.specs.declared.Node.{Node};
ghost use Rattle.event.specs.Act.{answered, dropped};

use message::Envelope;
use protocol::{Answer, Refusal};

// Drop of the message `reading` in record `r`: the answer and the store are the same whatever the node is.
pub fn drop_message(s: &mut [u8], reading: Option<Envelope>, r: u64) -> Result<Answer, Refusal>
    ensures { (node : Node) → (answered result ≡ (dropped reading node s.old r).answer) × (s.new ≡ (dropped reading node s.old r).store) }
{
    let Some(envelope) = reading else {
        return Err(Refusal::NoMessage);
    };
    store_change::drop_message(s, envelope.addressee, r);
    Ok(Answer::Ok)
}

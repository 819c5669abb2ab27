// What is found in store and event before the table is read.
ghost use Rattle.std.specs.Prelude.{◌≡◌};
ghost use Rattle.event.specs.Act.{reading_of, addressee_of, place_of, drop_target_of};

use message::Envelope;
use protocol::Event;

// The addressee of a message; 0 where there is none.
// Kept: 0 and no `None`, since the definition of an event reads the table there, and then refuses with 8.
#[tactic(auto, unfolding(crate::specs::Act::addressee_of))]
fn addressee(reading: Option<Envelope>) -> usize
    ensures { result ≡ addressee_of reading }
{
    reading.map_or(0, |envelope| envelope.addressee)
}

// Whose event it is: the node number given, or the addressee of the message.
#[tactic(auto, unfolding(crate::specs::Act::place_of))]
pub fn place(event: Event, reading: Option<Envelope>) -> usize
    ensures { result ≡ place_of event reading }
{
    match event {
        Event::Write { node, .. }
        | Event::Retry { node }
        | Event::Crash { node }
        | Event::Start { node } => node as usize,
        Event::Drop { .. } | Event::Deliver { .. } => addressee(reading),
    }
}

// Which record the event drops, if it is a Drop.
#[tactic(auto, unfolding(crate::specs::Act::drop_target_of))]
pub fn drop_target(event: Event) -> Option<u64>
    ensures { result ≡ drop_target_of event }
{
    match event {
        Event::Drop { record } => Some(record),
        _ => None,
    }
}

// The message in the event's record; none where it names no record.
#[tactic(auto, unfolding(crate::specs::Act::reading_of))]
pub fn read(s: &[u8], event: Event) -> Option<Envelope>
    ensures { result ≡ reading_of event s.now }
{
    match event {
        Event::Drop { record } | Event::Deliver { record } => store_access::message(s, record),
        _ => None,
    }
}

// The message in a record of the store.
ghost use Rattle.std.specs.Prelude.{◌≡◌};
ghost use Rattle.store.specs.Sound.{message_at};

use crate::head;
use message::Envelope;

// The message in record `r`, or a fault where there is none. Of a sound store exactly the records on inbox chains have
// one. Its rows are `record_read::rows`.
#[tactic(auto, unfolding(store::specs::Sound::message_at, store::specs::Records::right_length, store::specs::Sound::message_in))]
pub fn message(s: &[u8], r: u64) -> Option<Envelope>
    ensures { result ≡ message_at s.now r }
{
    if s.len() != store::LENGTH {
        return None;
    }
    if r == 0 {
        return None;
    }
    record_read::read(s, r as usize, head::group_size(s))
}

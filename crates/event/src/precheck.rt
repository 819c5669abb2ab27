// What refuses every event before its node or its record is read: refusal 2, and 3 of the store.
ghost use Rattle.std.specs.Prelude.{◌≡◌};
ghost use Rattle.event.specs.Act.{checked};

use protocol::Refusal;
use store::Survey;

// What is found in the store. Refused are one that has not its length (2), and one that is not sound (3).
#[tactic(auto, unfolding(crate::specs::Act::checked, store::specs::Records::right_length))]
pub fn check(s: &[u8]) -> Result<Survey, Refusal>
    ensures { result ≡ checked s.now }
{
    if s.len() != store::LENGTH {
        return Err(Refusal::StoreLength);
    }
    store_check::check_store(s).ok_or(Refusal::Unsound)
}

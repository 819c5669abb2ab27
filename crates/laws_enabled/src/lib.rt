// When each operation acts, that is, is not refused: on a sound table and store a test in the words of document 01 says it
// exactly.
#![tactic(auto)]

ghost use Rattle.laws_enabled.specs.Laws.{SetUpActs, WriteActs, RetryActs, CrashActs, StartActs, DropActs, DeliverActs};

// Set up acts exactly on a valid n, a table of n nodes and a store of the right length.
#[tactic(auto, using(crate::proofs::Acts::set_up_acts))]
pub fn set_up_acts()
    ensures { SetUpActs }
{}

// Write acts exactly if the node exists, is Up and Idle, is below its limits, and n-1 records are free.
#[tactic(auto, using(crate::proofs::Acts::write_acts))]
pub fn write_acts()
    ensures { WriteActs }
{}

// Retry acts exactly if the node exists, is neither Down nor Idle, is Fetching or below its limit, and n-1 records are free.
#[tactic(auto, using(crate::proofs::Acts::retry_acts))]
pub fn retry_acts()
    ensures { RetryActs }
{}

// Crash acts exactly if the node exists and is not Down.
#[tactic(auto, using(crate::proofs::Acts::crash_acts))]
pub fn crash_acts()
    ensures { CrashActs }
{}

// Start acts exactly if the node exists, is Down and below its limit, and n-1 records are free.
#[tactic(auto, using(crate::proofs::Acts::start_acts))]
pub fn start_acts()
    ensures { StartActs }
{}

// Drop acts exactly on a record that stands on an inbox chain.
#[tactic(auto, using(crate::proofs::Acts::drop_acts))]
pub fn drop_acts()
    ensures { DropActs }
{}

// Deliver acts exactly on such a record whose message its addressee takes, with a free record for all that it then sends.
#[tactic(auto, using(crate::proofs::Acts::deliver_acts))]
pub fn deliver_acts()
    ensures { DeliverActs }
{}

// A write gets through: where its Stores, the answers, the Confirms and their answers are delivered to and from f peers that
// are Up, it is settled.
#![tactic(auto)]

ghost use Rattle.laws_liveness.specs.Laws.{WriteGetsThrough, FirstWriteGetsThrough, RetryGetsThrough};

// From a sound table and store in which a write has just begun and its Stores stand in the inboxes of f peers.
#[tactic(auto, using(crate::proofs::Through::write_gets_through))]
pub fn write_gets_through()
    ensures { WriteGetsThrough }
{}

// From set-up, for any n, any node and any f other nodes.
#[tactic(auto, using(crate::proofs::First::first_write_gets_through))]
pub fn first_write_gets_through()
    ensures { FirstWriteGetsThrough }
{}

// After a Retry of an Up node with 5f free records, where f peers are Up and their rows take its item.
#[tactic(auto, using(crate::proofs::Again::retry_gets_through))]
pub fn retry_gets_through()
    ensures { RetryGetsThrough }
{}

// Examples of document 01 shown from the definitions: the ten lettered ones, one list and one sentence, the sixteen lines of
// its drill program over table and store, and the same calls on a network. There is no code.
#![tactic(auto)]

ghost use Rattle.examples.specs.Lettered.{LetteredExamples};
ghost use Rattle.examples.specs.NetworkReturn.{ReturnReached};
ghost use Rattle.examples.specs.Sixteen.{SixteenLines};

// Every example of the list answers as document 01 states, on any table of n nodes and any store of 65,280 bytes.
#[tactic(auto, using(crate::proofs::Lettered::lettered_examples))]
pub fn lettered_examples()
    ensures { LetteredExamples }
{}

// The sixteen lines of document 01's drill give the sixteen answers that it states, on any table of three nodes and any
// store of 65,280 bytes.
#[tactic(auto, using(crate::proofs::Sixteen::sixteen_lines))]
pub fn sixteen_lines()
    ensures { SixteenLines }
{}

// The calls of these lines are a run of the network, in which node 0 returns: demand 3 is not empty.
#[tactic(auto, using(crate::proofs::NetworkReturn::return_reached))]
pub fn return_reached()
    ensures { ReturnReached }
{}

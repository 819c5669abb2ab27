// The operations over a lent table and message store: in specs/ the definition of each, runs of them, and the claims in
// document 01's words; in proofs/ that every run is a run of the network (crate `protocol`). There is no code.
#![tactic(auto)]

ghost use Rattle.operations.specs.Claim.{EveryReturn};
ghost use Rattle.operations.specs.Refusal.{RefusalsChangeNothing};
ghost use Rattle.operations.specs.Simulation.{RunsAreNetworkRuns};

// Demand 1, of every operation on any table and store: a refused call leaves both as they were, and its number is one
// that document 01 lists for it.
#[tactic(auto, using(crate::proofs::Refusals::refusals_change_nothing))]
pub fn refusals_change_nothing()
    ensures { RefusalsChangeNothing }
{}

// Every list of calls after an accepted set-up is a run of the network, which leaves the nodes that the table has then.
#[tactic(auto, using(crate::proofs::Simulation::runs_are_network_runs))]
pub fn runs_are_network_runs()
    ensures { RunsAreNetworkRuns }
{}

// Demand 3, of every run from an accepted set-up: a node that returns names its last item, or an item of the next index
// that it had itself begun.
#[tactic(auto, using(crate::proofs::Simulation::every_return))]
pub fn every_return()
    ensures { EveryReturn }
{}

// The theory behind "Runs and returns" (demand 3): a group of 2f + 1 nodes as one writer sees it, what calls can do to it,
// and the proof that a node returns with its last item or with one of the next index that it had begun. There is no code.
#![tactic(auto)]

// What the store holds after a call: each inbox as the list of its messages, the free chain, and how many records are free.
#![tactic(auto)]

ghost use Rattle.laws_inboxes.specs.Laws.{SetUpEmpties, HoldsAfterCall, RecordsCounted};

// After set-up every inbox is empty and every record from 1 is free, in order.
#[tactic(auto, using(crate::proofs::After::set_up_empties))]
pub fn set_up_empties()
    ensures { SetUpEmpties }
{}

// After a call that acts each inbox is what it was, without a dropped message, and with what the call sent at its end.
#[tactic(auto, using(crate::proofs::After::holds_after_call))]
pub fn holds_after_call()
    ensures { HoldsAfterCall }
{}

// Every record but the head is free or holds a message.
#[tactic(auto, using(crate::proofs::After::records_counted))]
pub fn records_counted()
    ensures { RecordsCounted }
{}

// The group: its seven operations over a lent table and a lent message store, of any length and content.
// Kept: answer, table and store one by one in the clause, as document 01 states all three.
#![tactic(auto)]

mod performing;
mod preparing;

ghost use Rattle.std.specs.Prelude.{◌≡◌};
ghost use Rattle.operations.specs.Operation as operation;

pub use preparing::set_up;
use protocol::{Answer, Event, Node};

// An event at its node.
pub fn perform(table: &mut [Node], store: &mut [u8], event: Event) -> Answer
    ensures { (result ≡ (operation.perform event table.old store.old).answer) × ((table.new ≡ (operation.perform event table.old store.old).table) × (store.new ≡ (operation.perform event table.old store.old).store)) }
{
    performing::perform(table, store, event).unwrap_or_else(Answer::Refused)
}

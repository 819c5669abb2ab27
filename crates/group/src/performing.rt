// An event over a lent table and a lent message store: refused before its node is read, or carried out at it.
ghost use Rattle.std.specs.Prelude.{◌≡◌};
ghost use Rattle.operations.specs.Operation as operation;
ghost use Rattle.group.specs.Perform.{admitted, GivesAll};

use event::{check, drop_message, drop_target, place, read};
use protocol::{Answer, Event, Node, Refusal};
use store::Survey;
use table::{check_table, node_at, replace_node};

// What is found in the store, where it and the table are sound.
#[tactic(auto, unfolding(crate::specs::Perform::admitted, crate::specs::Perform::with_table))]
fn admit(table: &[Node], store: &[u8]) -> Result<Survey, Refusal>
    ensures { result ≡ admitted table.now store.now }
{
    let seen = check(store)?;
    if !check_table(table, seen.n) {
        return Err(Refusal::Unsound);
    }
    Ok(seen)
}

// An event at its node. A Drop looks at no node, so that none is copied for it.
pub fn perform(table: &mut [Node], store: &mut [u8], event: Event) -> Result<Answer, Refusal>
    ensures { GivesAll (operation.perform event table.old store.old) result table.new store.new }
{
    let seen = admit(table, store)?;
    let reading = read(store, event);
    if let Some(record) = drop_target(event) {
        return drop_message(store, reading, record);
    }
    let k = place(event, reading);
    let mut node = node_at(table, k);
    let result = act::on_sound(store, &mut node, seen, reading, event);
    replace_node(table, k, node);
    result
}

// Set-up of a group over a lent table and a lent message store, of any length and content.
ghost use Rattle.std.specs.Prelude.{◌≡◌};
ghost use Rattle.operations.specs.Operation as operation;
ghost use Rattle.group.specs.SetUp.{prepared, prepared_store};

use protocol::{Answer, Node, Refusal};

// Set-up of a group of n, where the table has so many nodes: everything but the table.
#[tactic(auto, unfolding(crate::specs::SetUp::prepared, crate::specs::SetUp::prepared_store))]
fn prepare(s: &mut [u8], n: usize, nodes: usize) -> Result<(), Refusal>
    ensures { (result ≡ prepared n nodes s.old) × (s.new ≡ prepared_store n nodes s.old) }
{
    if !item::valid_size(n) {
        return Err(Refusal::GroupSize);
    }
    if nodes != n {
        return Err(Refusal::GroupSize);
    }
    if s.len() != store::LENGTH {
        return Err(Refusal::StoreLength);
    }
    store_change::set_up(s, n);
    Ok(())
}

// A group of n is set up: every node Up and Idle, and every record of the store free.
pub fn set_up(table: &mut [Node], store: &mut [u8], n: u64) -> Answer
    ensures { (result ≡ (operation.set_up n table.old store.old).answer) × ((table.new ≡ (operation.set_up n table.old store.old).table) × (store.new ≡ (operation.set_up n table.old store.old).store)) }
{
    if let Err(why) = prepare(store, n as usize, table.len()) {
        return Answer::Refused(why);
    }
    table::fill_table(table, n as usize);
    Answer::Ok
}

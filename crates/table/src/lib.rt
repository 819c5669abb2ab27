// The table: a lent slice of nodes. One is read or replaced, all are checked, all are filled; nothing is decided here.
// Kept: a slice and the number of a node in it, as document 01 names nodes; any table and any number may come.
#![tactic(auto)]

mod check;
mod fill;

ghost use Rattle.std.specs.Prelude.{◌≡◌, set, get_or};
ghost use Rattle.protocol.specs.Table.{no_node};

pub use check::check_table;
pub use fill::fill_table;
use item::Incarnation;
use protocol::Node;

// What stands where the table has no node.
#[tactic(auto, unfolding(protocol::specs::Table::no_node))]
fn no_node() -> Node
    ensures { result ≡ no_node }
{
    Node::blank(0, 0, Incarnation(0))
}

// The node at `i`; a blank one where the table has none.
pub fn node_at(table: &[Node], i: usize) -> Node
    ensures { result ≡ get_or table.now i no_node }
{
    if i < table.len() {
        return table[i];
    }
    no_node()
}

// The node at `k` is replaced; where the table has none nothing is.
pub fn replace_node(table: &mut [Node], k: usize, node: Node)
    ensures { table.new ≡ set table.old k node }
{
    if k < table.len() {
        table[k] = node;
    }
}

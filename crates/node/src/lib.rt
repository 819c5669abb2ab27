// One node: its rows, its peers, its stage, and each kind of change of it. A number past the last row reads as zero.
#![tactic(auto)]

mod lifecycle;
mod peers;
mod rows;
mod stage;

ghost use Rattle.std.specs.Prelude.{◌≡◌};
ghost use Rattle.protocol.specs.Node.{row_of, own_item};

use item::{Item, Row};
pub use lifecycle::{crashed, fresh_node, started};
pub use peers::{count_peers, half, is_counted, peer_of};
use protocol::Node;
pub use rows::{with_counted, with_row, with_rows};
pub use stage::{confirming_begun, storing_begun, write_ended};

// The row of node i; past the last row, the zero row.
#[tactic(auto, unfolding(protocol::specs::Node::row_of))]
pub fn row_of(node: &Node, i: usize) -> Row
    ensures { result ≡ row_of node.now i }
{
    node.rows.get(i).copied().unwrap_or(Row::zero())
}

// The item in the node's own row.
#[tactic(auto, unfolding(protocol::specs::Node::own_item))]
pub fn own_item(node: &Node) -> Item
    ensures { result ≡ own_item node.now }
{
    row_of(node, node.number).item
}

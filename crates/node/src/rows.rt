// A node by value with some of its rows or of the peers counted replaced. A field that a function's comment does not name
// stays, and a number past the last row changes nothing.
ghost use Rattle.std.specs.Prelude.{◌≡◌};
ghost use Rattle.protocol.specs.Node.{with_row, with_counted, with_rows};

use item::{Incarnation, Row};
use protocol::{Node, Peer};

// One row is replaced; past the last row nothing is.
#[tactic(auto, unfolding(protocol::specs::Node::with_row))]
pub fn with_row(mut node: Node, i: usize, row: Row) -> Node
    ensures { result ≡ with_row node i row }
{
    if i < item::MAX_NODES {
        node.rows[i] = row;
    }
    node
}

// The sender is counted, under this incarnation; past the last nobody is.
#[tactic(auto, unfolding(protocol::specs::Node::with_counted))]
pub fn with_counted(mut node: Node, sender: usize, incarnation: Incarnation) -> Node
    ensures { result ≡ with_counted node sender incarnation }
{
    if sender < item::MAX_NODES {
        node.counted[sender] = Peer {
            present: true,
            incarnation,
        };
    }
    node
}

// Every row is replaced.
#[tactic(auto, unfolding(protocol::specs::Node::with_rows))]
pub fn with_rows(node: Node, rows: [Row; item::MAX_NODES]) -> Node
    ensures { result ≡ with_rows node rows }
{
    Node { rows, ..node }
}

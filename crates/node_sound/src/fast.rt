// Whether a node is at rest (no row marked, nobody counted or asked) and its unused rows are zero: all that is to be asked of
// one that is Up and Idle. The tests are joined without a branch, so that the compiler unrolls them.
ghost use Rattle.std.specs.Prelude.{◌≡◌};
ghost use Rattle.std.specs.List.{list_all};
ghost use Rattle.node_sound.specs.Rest.{unmarked, absent, at_rest, numbers_zero, row_bits, unused_zero};

use item::{Incarnation, Row};
use protocol::{Node, Peer};

// Whether no row is marked and nobody is counted or asked.
#[tactic(auto, unfolding(crate::specs::Rest::at_rest))]
pub fn is_at_rest(node: &Node) -> bool
    ensures { result ≡ at_rest node.now }
{
    no_marks(&node.rows) & no_peers(&node.counted) & no_peers(&node.asked)
}

// Whether no row is marked.
#[tactic(auto, using(crate::proofs::Every::joined_tests))]
fn no_marks(rows: &[Row; item::MAX_NODES]) -> bool
    ensures { result ≡ list_all unmarked rows.now }
{
    rows.iter().fold(true, |all, row| all & !row.marked)
}

// Whether nobody is among these peers.
// Kept: each peer by value (`copied`), so that the compiler joins whole peers; where a peer is lent it gathers field by field.
fn no_peers(peers: &[Peer; item::MAX_NODES]) -> bool
    ensures { result ≡ list_all absent peers.now }
{
    peers
        .iter()
        .copied()
        .fold(true, |all, peer| all & is_absent(peer))
}

// Whether the peer is neither counted nor asked, and nothing is kept of it.
#[tactic(auto, unfolding(item::specs::Counter::same_incarnation))]
fn is_absent(peer: Peer) -> bool
    ensures { result ≡ absent peer }
{
    !peer.present & (peer.incarnation == Incarnation(0))
}

// Whether the numbers in every row from n on are zero. Marks are not looked at: a node at rest has none.
#[tactic(auto, unfolding(crate::specs::Rest::unused_zero))]
pub fn unused_zero(n: usize, rows: &[Row; item::MAX_NODES]) -> bool
    ensures { result ≡ unused_zero n rows.now }
{
    if item::MAX_NODES <= n {
        return true;
    }
    numbers_zero(&rows[n..])
}

// Whether every number in these rows is zero: all are joined into one, which is tested once.
fn numbers_zero(rows: &[Row]) -> bool
    ensures { result ≡ list_all numbers_zero rows.now }
{
    rows.iter().fold(0, |joined, row| joined | numbers(row)) == 0
}

// The bits that stand in the numbers of a row, joined: 0 exactly if each number is.
fn numbers(row: &Row) -> u64
    ensures { result ≡ row_bits row.now }
{
    row.item.index.0 | row.item.tag.0 | u64::from(row.incarnation.0) | u64::from(row.attempt.0)
}

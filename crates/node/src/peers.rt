// The peers that a node counts or asks, and how many of them it takes. A number past the last peer reads as one that is
// neither counted nor asked.
ghost use Rattle.std.specs.Prelude.{◌≡◌};
ghost use Rattle.protocol.specs.Node.{half as f, peer_of, count_peers};
ghost use Rattle.protocol.specs.Storing.{is_counted};

use item::Incarnation;
use protocol::{Node, Peer};

// f, of a group of n = 2f + 1.
#[tactic(auto, unfolding(protocol::specs::Node::half))]
pub fn half(n: usize) -> usize
    ensures { result ≡ f n }
{
    n / 2
}

// The incarnation under which this peer is counted, or asked, if it is; past the last, none.
#[tactic(auto, unfolding(protocol::specs::Node::peer_of))]
pub fn peer_of(peers: &[Peer; item::MAX_NODES], number: usize) -> Option<Incarnation>
    ensures { result ≡ peer_of peers.now number }
{
    let peer = peers.get(number)?;
    peer.present.then_some(peer.incarnation)
}

// How many peers are counted, or asked.
#[tactic(auto, unfolding(protocol::specs::Node::count_peers))]
pub fn count_peers(peers: &[Peer; item::MAX_NODES]) -> usize
    ensures { result ≡ count_peers peers.now }
{
    peers.iter().filter(|peer| peer.present).count()
}

// Whether the sender is counted.
#[tactic(auto, unfolding(protocol::specs::Storing::is_counted))]
pub fn is_counted(node: &Node, sender: usize) -> bool
    ensures { result ≡ is_counted node.now sender }
{
    peer_of(&node.counted, sender).is_some()
}

// What the delivery of a message without rows reads of its node: a few fields by value in place of the whole node, so that a
// decision moves no rows.
ghost use Rattle.std.specs.Prelude.{◌≡◌, set};
ghost use Rattle.protocol.specs.Node.{count_peers};
ghost use Rattle.sender_view.specs.View.{some_peer, view_of, own_write_in};

use item::{Attempt, Incarnation, Item, Row};
use node::{count_peers, is_counted, own_item, peer_of, row_of};
use protocol::{Node, Peer, Phase};

// What a node is to one sender.
#[derive(Clone, Copy)]
pub struct SenderView {
    // How many nodes the group has.
    pub n: usize,
    pub incarnation: Incarnation,
    pub attempt: Attempt,
    pub phase: Phase,
    // The item in the node's own row.
    pub own: Item,
    // The sender's row.
    pub row: Row,
    // Whether the sender is counted.
    // Kept: a test alone, since no decision asks under which incarnation.
    pub counted: bool,
    // The incarnation under which the sender is asked, if it is.
    pub asked: Option<Incarnation>,
    // How many are counted with the sender.
    pub count: usize,
}

// How many are counted with the sender.
fn count_with(mut peers: [Peer; item::MAX_NODES], sender: usize) -> usize
    ensures { result ≡ count_peers (set peers sender some_peer) }
{
    if sender < item::MAX_NODES {
        peers[sender] = Peer {
            present: true,
            incarnation: Incarnation(0),
        };
    }
    count_peers(&peers)
}

// What the node is to this sender.
#[tactic(auto, unfolding(crate::specs::View::view_of))]
pub fn view_of(node: &Node, sender: usize) -> SenderView
    ensures { result ≡ view_of node.now sender }
{
    SenderView {
        n: node.n,
        incarnation: node.incarnation,
        attempt: node.attempt,
        phase: node.phase,
        own: own_item(node),
        row: row_of(node, sender),
        counted: is_counted(node, sender),
        asked: peer_of(&node.asked, sender),
        count: count_with(node.counted, sender),
    }
}

// Whether other incarnation, attempt and item are the node's own present ones.
// Kept: other, attempt and item come from three kinds of `Message`, for the reason that is given at `storing::on_stored`.
#[tactic(auto, unfolding(crate::specs::View::own_write_in, item::specs::Counter::same_incarnation, item::specs::Counter::same_attempt, item::specs::Item::same_item, item::specs::Item::tags_agree))]
pub fn own_write(view: SenderView, other: Incarnation, attempt: Attempt, item: Item) -> bool
    ensures { result ≡ own_write_in view other attempt item }
{
    other == view.incarnation && attempt == view.attempt && item == view.own
}

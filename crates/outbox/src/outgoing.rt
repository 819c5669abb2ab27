// What a decision sends: to whom, what, how many messages, and the items that go with a Table. No array of messages is
// built, as most decisions send one or none.
ghost use Rattle.std.specs.Prelude.{◌≡◌, map, option_map};
ghost use Rattle.item.specs.declared.Row.{Row};
ghost use Rattle.message.specs.declared.Message.TheVariants.{Confirm};
ghost use Rattle.protocol.specs.Node.{peer_of, row_items};
ghost use Rattle.protocol.specs.Outgoing.{message_to, outgoing_to, outgoing};
ghost use Rattle.store.specs.Change.{count_outgoing};

use item::{Attempt, Item, Row};
use message::{Envelope, Message};
use node::peer_of;
use protocol::{Node, Sends};

// What a node sends by a decision.
#[derive(Clone, Copy)]
pub struct Sending<'a> {
    // The node after the decision.
    pub node: &'a Node,
    pub sends: Sends,
    // The sender of the message delivered.
    pub back: usize,
}

// Confirm to peer `k`, if it is asked, with the incarnation under which it answered Stored.
fn confirm_to(node: &Node, k: usize, attempt: Attempt, item: Item) -> Option<Message>
    ensures { result ≡ option_map (λ other. Confirm other attempt item) (peer_of node.now.asked k) }
{
    let other = peer_of(&node.asked, k)?;
    Some(Message::Confirm {
        other,
        attempt,
        item,
    })
}

impl Sending<'_> {
    // The message to node `k`, if one goes there.
    #[tactic(auto, unfolding(protocol::specs::Outgoing::message_to))]
    fn message_to(&self, k: usize) -> Option<Message>
        ensures { result ≡ message_to self.now.sends self.now.node.now self.now.back k }
    {
        match self.sends {
            Sends::Nothing => None,
            Sends::Back(message) => (k == self.back).then_some(message),
            Sends::Others(message) => (k != self.node.number).then_some(message),
            Sends::Asked(attempt, item) => confirm_to(self.node, k, attempt, item),
        }
    }

    // What goes to node `k`, if anything.
    #[tactic(auto, unfolding(protocol::specs::Outgoing::outgoing_to))]
    pub fn to(&self, k: usize) -> Option<Envelope>
        ensures { result ≡ outgoing_to self.now.node.now self.now.sends self.now.back k }
    {
        let node = self.node;
        if node.n <= k {
            return None;
        }
        let message = self.message_to(k)?;
        Some(Envelope {
            sender: node.number,
            addressee: k,
            incarnation: node.incarnation,
            message,
        })
    }

    // How many messages are sent.
    #[tactic(auto, unfolding(protocol::specs::Outgoing::outgoing))]
    pub fn count(&self) -> usize
        ensures { result ≡ count_outgoing (outgoing self.now.node.now self.now.sends self.now.back) }
    {
        (0..item::MAX_NODES)
            .filter(|k| self.to(*k).is_some())
            .count()
    }
}

// The items of rows.
fn items_of(rows: &[Row; item::MAX_NODES]) -> [Item; item::MAX_NODES]
    ensures { result ≡ map (λ (row : Row). row.item) rows.now }
{
    rows.map(|row| row.item)
}

// The items of the node's rows.
#[tactic(auto, unfolding(protocol::specs::Node::row_items))]
pub fn row_items(node: &Node) -> [Item; item::MAX_NODES]
    ensures { result ≡ row_items node.now }
{
    items_of(&node.rows)
}

// The two requests to every other node, Store and Fetch.
ghost use Rattle.std.specs.Prelude.{◌≡◌};
ghost use Rattle.protocol.specs.Write.{send_store, send_fetch};

use crate::step::ok;
use message::Message;
use node::own_item;
use protocol::{Node, Sends, Step};

// Store goes to every other node, with the attempt and item of the write that has begun.
#[tactic(auto, unfolding(protocol::specs::Write::send_store))]
pub fn send_store(node: Node) -> Step
    ensures { result ≡ send_store node }
{
    let store = Message::Store {
        attempt: node.attempt,
        item: own_item(&node),
    };
    ok(node, Sends::Others(store))
}

// Fetch goes to every other node.
#[tactic(auto, unfolding(protocol::specs::Write::send_fetch))]
pub fn send_fetch(node: Node) -> Step
    ensures { result ≡ send_fetch node }
{
    ok(node, Sends::Others(Message::Fetch))
}

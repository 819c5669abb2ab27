// A node by value when a stage of its write begins or the write ends. A field that a function's comment does not name stays.
ghost use Rattle.std.specs.Prelude.{◌≡◌};
ghost use Rattle.protocol.specs.Node.{storing_begun, confirming_begun, write_ended};

use crate::rows::with_row;
use item::{Attempt, Item, Row};
use protocol::{Node, Peer, Phase, Stage};

// A write begins or begins again: the own row takes the item with these counters, and nobody is counted or asked.
#[tactic(auto, unfolding(protocol::specs::Node::storing_begun, protocol::specs::Node::with_row))]
pub fn storing_begun(node: Node, phase: Phase, attempt: Attempt, item: Item) -> Node
    ensures { result ≡ storing_begun node phase attempt item }
{
    let row = Row {
        item,
        incarnation: node.incarnation,
        attempt,
        marked: false,
    };
    Node {
        attempt,
        phase,
        counted: [Peer::none(); item::MAX_NODES],
        asked: [Peer::none(); item::MAX_NODES],
        ..with_row(node, node.number, row)
    }
}

// Those counted are asked, and nobody is counted.
#[tactic(auto, unfolding(protocol::specs::Node::confirming_begun))]
pub fn confirming_begun(node: Node, phase: Phase) -> Node
    ensures { result ≡ confirming_begun node phase }
{
    let asked = node.counted;
    Node {
        phase,
        counted: [Peer::none(); item::MAX_NODES],
        asked,
        ..node
    }
}

// Up and Idle, and nobody is counted or asked.
#[tactic(auto, unfolding(protocol::specs::Node::write_ended))]
pub fn write_ended(node: Node) -> Node
    ensures { result ≡ write_ended node }
{
    Node {
        phase: Phase::Up(Stage::Idle),
        counted: [Peer::none(); item::MAX_NODES],
        asked: [Peer::none(); item::MAX_NODES],
        ..node
    }
}

// A node as it is set up, crashes and starts.
ghost use Rattle.std.specs.Prelude.{◌≡◌};
ghost use Rattle.protocol.specs.Node.{crashed as crashed_node, started as started_node, fresh_node};

use item::Incarnation;
use protocol::{Node, Phase, Stage};

// Down; only number, n and incarnation remain.
#[tactic(auto, unfolding(protocol::specs::Node::crashed))]
pub fn crashed(node: Node) -> Node
    ensures { result ≡ crashed_node node }
{
    Node::blank(node.number, node.n, node.incarnation)
}

// Fetching in the next incarnation, and nothing is known yet.
#[tactic(auto, unfolding(protocol::specs::Node::started, protocol::specs::Node::blank_node))]
pub fn started(node: Node) -> Node
    ensures { result ≡ started_node node }
{
    Node {
        phase: Phase::Fetching,
        ..Node::blank(node.number, node.n, node.incarnation.next())
    }
}

// A node as Set up leaves it: Up and Idle, incarnation 1, all else zero.
#[tactic(auto, unfolding(protocol::specs::Node::fresh_node, protocol::specs::Node::write_ended, protocol::specs::Node::blank_node))]
pub fn fresh_node(number: usize, n: usize) -> Node
    ensures { result ≡ fresh_node number n }
{
    Node {
        phase: Phase::Up(Stage::Idle),
        ..Node::blank(number, n, Incarnation(1))
    }
}

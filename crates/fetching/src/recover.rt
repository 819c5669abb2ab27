// What a node that has counted one more table does: at f + 1 of them it stops, or it returns and writes its own item back.
ghost use Rattle.std.specs.Prelude.{◌≡◌};
ghost use Rattle.protocol.specs.Fetching.{written_back, node_recover, table_counted};

use crate::merge::lowest_marked;
use item::Attempt;
use node::{count_peers, crashed, half, own_item, storing_begun};
use node_calls::{ok, send_store};
use protocol::{Answer, Node, Phase, Sends, Stage, Step};

// What a node does that has counted one more table: nothing before f + 1.
#[tactic(auto, unfolding(protocol::specs::Fetching::table_counted))]
pub fn table_counted(node: Node) -> Step
    ensures { result ≡ table_counted node }
{
    if count_peers(&node.counted) <= half(node.n) {
        return ok(node, Sends::Nothing);
    }
    node_recover(node)
}

// What a node that counts f + 1 tables does: where some row's greatest index has come with two tags the return ends at the
// lowest such row, and the node is Down; otherwise it sends the item that it writes back to every other node.
#[tactic(auto, unfolding(protocol::specs::Fetching::node_recover, protocol::specs::Fetching::recovered, protocol::specs::Fetching::stopped))]
fn node_recover(node: Node) -> Step
    ensures { result ≡ node_recover node }
{
    match lowest_marked(&node.rows) {
        Some(row) => Step {
            answer: Answer::Stopped(row),
            node: crashed(node),
            sends: Sends::Nothing,
        },
        None => send_store(written_back(node)),
    }
}

// Returning: the node writes back its own item under attempt 1.
#[tactic(auto, unfolding(protocol::specs::Fetching::written_back))]
fn written_back(node: Node) -> Node
    ensures { result ≡ written_back node }
{
    let item = own_item(&node);
    storing_begun(node, Phase::Returning(Stage::Storing), Attempt(1), item)
}

// An operation of the group as a line of a drill asks for it, over lent nodes of which the first ones are the group's table.
#![tactic(auto)]

ghost use Rattle.std.specs.Prelude.{◌≡◌, ◌≤◌};
ghost use Rattle.script.specs.Operated.{operated_first};
ghost use Rattle.on_first_nodes.specs.Lending.{first_nodes};

use protocol::{Answer, Node};
use script::Asked;

// How many nodes are the table of a group of n, where so many are held: all of them, where there are fewer than n.
#[tactic(auto, unfolding(crate::specs::Lending::first_nodes))]
fn first_nodes(n: u64, held: usize) -> usize
    ensures value { result ≡ first_nodes n held }
    ensures within { result ≤ held }
{
    if n < held as u64 {
        return n as usize;
    }
    held
}

// What is asked, over the first n of the nodes held; the others stay as they are.
pub fn operate_first(nodes: &mut [Node], store: &mut [u8], asked: Asked) -> Answer
    ensures { (result ≡ (operated_first asked nodes.old store.old).answer) × ((nodes.new ≡ (operated_first asked nodes.old store.old).table) × (store.new ≡ (operated_first asked nodes.old store.old).store)) }
{
    let held = nodes.len();
    match asked {
        Asked::SetUp(n) => group::set_up(&mut nodes[..first_nodes(n, held)], store, n),
        Asked::Call { n, event } => {
            group::perform(&mut nodes[..first_nodes(n, held)], store, event)
        }
    }
}

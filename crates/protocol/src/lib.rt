// The protocol: the types of a node, its events and answers; in specs/ the definition of every decision of a node and of
// the network that such nodes make; the theorem on its runs. The crates above decide as these definitions say.
#![tactic(auto)]

ghost use Rattle.std.specs.Prelude.{◌≡◌};
ghost use Rattle.protocol.specs.Claim.{EveryNetworkReturn};
ghost use Rattle.protocol.specs.Network.{NodeRefusals};
ghost use Rattle.protocol.specs.Node.{blank_node, no_peer};

use item::{Attempt, Incarnation, Item, Row, Tag};
use message::Message;

// How far the present write has come.
#[derive(Clone, Copy)]
pub enum Stage {
    Idle,
    // Store went to all others; fewer than f answered.
    Storing,
    // f answered and were asked to confirm; fewer than f did.
    Confirming,
}

// Where a node stands between a crash and its return.
#[derive(Clone, Copy)]
pub enum Phase {
    Down,
    // Started: it collects the tables of f + 1 others.
    Fetching,
    // It has rebuilt its rows and writes back its own item.
    Returning(Stage),
    Up(Stage),
}

// What a node notes of another node that it counts or asks: whether it does, and under which incarnation.
// Kept: a flag and a number; an `Option` would leave out tables that a host may lend and that are refused with 3.
#[derive(Clone, Copy)]
pub struct Peer {
    pub present: bool,
    pub incarnation: Incarnation,
}

// One node of a group. Whatever its phase has no use for is zero.
#[derive(Clone, Copy)]
pub struct Node {
    // Its place in the table.
    pub number: usize,
    // How many nodes the group has.
    pub n: usize,
    pub incarnation: Incarnation,
    pub attempt: Attempt,
    pub phase: Phase,
    // Kept: three arrays of fixed memory by node number, since document 01 has them apart, and those counted become those
    // asked as a whole.
    // What each node last stored here; while Fetching, the greatest items of the tables counted.
    pub rows: [Row; item::MAX_NODES],
    // The peers whose answers or tables are counted in this stage, each by the incarnation under which it is counted.
    pub counted: [Peer; item::MAX_NODES],
    // While Confirming, the f peers asked, each by the incarnation under which it answered Stored.
    pub asked: [Peer; item::MAX_NODES],
}

// Why a call is refused, by document 01's number (`refusal_number` in specs/).
#[derive(Clone, Copy)]
pub enum Refusal {
    // N is not valid, or the table has not n nodes.
    GroupSize = 1,
    // The store has not the length of a store.
    StoreLength = 2,
    // Store or table is unsound.
    Unsound = 3,
    // No node has this number.
    NoNode = 4,
    // The node's stage does not allow the call.
    WrongStage = 5,
    // A counter that would rise is at its largest.
    AtLargest = 6,
    // Too few free records.
    NoRoom = 7,
    // The record is on no inbox chain.
    NoMessage = 8,
    // The addressee's stage does not take this kind of message.
    NotTaken = 9,
    // The message belongs to another incarnation, attempt or item.
    Stale = 10,
    // The sender is counted already.
    Counted = 11,
    // The row has an item that ranks above the one to store.
    LowerRank = 12,
    // The row has an item of the same rank with another tag.
    OtherTag = 13,
}

// What a call answers.
// Kept: a refusal is one of document 01's answers and is printed as the others are. A decision that refuses gives a `Result`.
#[derive(Clone, Copy)]
pub enum Answer {
    Ok,
    // The write of this item is settled.
    Settled(Item),
    // The node has returned, with this item.
    Accepted(Item),
    // The return ended at this row: its greatest index came with two tags.
    Stopped(usize),
    Refused(Refusal),
}

// What a decision sends. A Table goes with the rows of the node that sends it.
#[derive(Clone, Copy)]
pub enum Sends {
    Nothing,
    // A message to the sender of the one delivered.
    Back(Message),
    // A message to every other node, by rising number.
    Others(Message),
    // A Confirm to each peer asked, by rising number, with the incarnation under which it answered Stored.
    Asked(Attempt, Item),
}

// What a node's phase uses of its rows: nothing; items and marks; or items and counters.
#[derive(Clone, Copy)]
pub enum RowUse {
    Zero,
    Fetched,
    Stored,
}

// What one node makes of one event: the answer, the node afterwards, and what it sends.
#[derive(Clone, Copy)]
pub struct Step {
    pub answer: Answer,
    pub node: Node,
    pub sends: Sends,
}

// The events after set-up, with numbers that may be anything.
#[derive(Clone, Copy)]
pub enum Event {
    Write { node: u64, tag: Tag },
    Retry { node: u64 },
    Crash { node: u64 },
    Start { node: u64 },
    Drop { record: u64 },
    Deliver { record: u64 },
}

impl Peer {
    // A peer that is neither counted nor asked.
    pub fn none() -> Peer
        ensures { result ≡ no_peer }
    {
        Peer {
            present: false,
            incarnation: Incarnation(0),
        }
    }
}

impl Node {
    // The blank node, Down: only number, n and incarnation remain.
    #[tactic(auto, unfolding(crate::specs::Node::blank_node))]
    pub fn blank(number: usize, n: usize, incarnation: Incarnation) -> Node
        ensures { result ≡ blank_node number n incarnation }
    {
        Node {
            number,
            n,
            incarnation,
            attempt: Attempt(0),
            phase: Phase::Down,
            rows: [Row::zero(); item::MAX_NODES],
            counted: [Peer::none(); item::MAX_NODES],
            asked: [Peer::none(); item::MAX_NODES],
        }
    }
}

// Of the refusals in a run, 5, 6 and 9 to 13 are a node's own, and it gives no other.
#[tactic(auto, using(crate::proofs::NodeRefusals::node_refusals))]
pub fn node_refusals()
    ensures { NodeRefusals }
{}

// Demand 3 of nodes on machines of their own, whatever becomes of the messages between them: a node that returns names its
// last item, or an item of the next index that it had itself begun.
#[tactic(auto, using(crate::proofs::NetworkReturns::every_network_return))]
pub fn every_network_return()
    ensures { EveryNetworkReturn }
{}

// Drives three nodes by value through a write, a return and a return that stops, and prints for each line of a script its
// answer and each message that it sends. The stored output was worked out from document 01.
//
// A line of a script is a letter, a sender and the node at which it happens:
//   n, w, c, s: the node is set up, writes tag 65, crashes, or starts
//   m: what the sender sent in its latest line reaches the node
//   x: the node's row of node 2 takes index 7 with a tag of its own
// Kept: no `impl Display`, since `Message`, `Envelope` and `Answer` are of other crates; a digit of the script names a node.
#![tactic(auto)]

ghost use Rattle.std.specs.Prelude.{◌<◌};

use answers::print_line;
use engine::{crash, deliver, fresh_node, start, write};
use item::{Attempt, Incarnation, Index, Item, Row, Tag};
use message::{Envelope, Message};
use node::with_row;
use outbox::{Sending, row_items};
use protocol::{Answer, Node, Refusal, Sends, Step};
use record_write::fields_of;
use std::io;
use std::io::Write;

// The nodes of the group.
const NODES: usize = 3;

// The node that a script's digit names.
fn node_at(digit: u8) -> usize
    ensures { result < 3 }
{
    match digit {
        b'0' => 0,
        b'1' => 1,
        _ => 2,
    }
}

// The name of a kind of message.
fn kind_name(message: Message) -> &'static str {
    match message {
        Message::Store { .. } => "Store",
        Message::Stored { .. } => "Stored",
        Message::Confirm { .. } => "Confirm",
        Message::Confirmed { .. } => "Confirmed",
        Message::Fetch => "Fetch",
        Message::Table { .. } => "Table",
    }
}

// One message: to whom, and its fields; 0 where its kind has none.
fn print_message(out: &mut impl Write, envelope: Envelope) -> io::Result<()> {
    let fields = fields_of(envelope);
    let kind = kind_name(envelope.message);
    let addressee = fields.addressee;
    let other = fields.other.0;
    let attempt = fields.attempt.0;
    let index = fields.item.index.0;
    let tag = fields.item.tag.0;
    writeln!(
        out,
        "{kind:9} to {addressee} other {other} attempt {attempt} item {index} {tag}"
    )
}

// What a step sends; `back` is the sender of the message delivered.
fn sending_of(step: &Step, back: usize) -> Sending<'_> {
    Sending {
        node: &step.node,
        sends: step.sends,
        back,
    }
}

fn print_sends(out: &mut impl Write, step: Step, back: usize) -> io::Result<()> {
    let sending = sending_of(&step, back);
    for k in 0..NODES {
        if let Some(envelope) = sending.to(k) {
            print_message(out, envelope)?;
        }
    }
    Ok(())
}

fn print_answer(out: &mut impl Write, answer: Answer, count: u64) -> io::Result<()> {
    let mut line = [0u8; answers::LINE_ROOM];
    let end = print_line(&mut line, 0, count, Some(answer));
    match line.get(..end) {
        Some(said) => out.write_all(said),
        None => Ok(()),
    }
}

// What the sender's latest step sent reaches this node.
fn handed(from: Step, to: Node) -> Result<Step, Refusal> {
    let sent = sending_of(&from, to.number).to(to.number);
    let envelope = sent.ok_or(Refusal::NoMessage)?;
    deliver(to, envelope, row_items(&from.node))
}

// The node's row of node 2 takes index 7, with the node's number as tag.
fn disagreeing(node: Node) -> Step {
    let row = Row {
        item: Item {
            index: Index(7),
            tag: Tag(node.number as u64),
        },
        incarnation: Incarnation(1),
        attempt: Attempt(1),
        marked: false,
    };
    Step {
        answer: Answer::Ok,
        node: with_row(node, 2, row),
        sends: Sends::Nothing,
    }
}

// What a line's letter does at the node of this number.
// Kept: a match; a table of closures would say each letter and step as it does.
fn event(letter: u8, from: Step, number: usize, node: Node) -> Result<Step, Refusal> {
    match letter {
        b'n' => Ok(fresh_step(number)),
        b'w' => write(node, Tag(65)),
        b'c' => crash(node),
        b's' => start(node),
        b'x' => Ok(disagreeing(node)),
        _ => handed(from, node),
    }
}

// A refusal changes nothing of the node.
fn refused(node: Node, why: Refusal) -> Step {
    Step {
        answer: Answer::Refused(why),
        node,
        sends: Sends::Nothing,
    }
}

// A node as it is set up.
fn fresh_step(number: usize) -> Step {
    Step {
        answer: Answer::Ok,
        node: fresh_node(number, NODES),
        sends: Sends::Nothing,
    }
}

// One line of a script, with the space after it. A node is kept with what its latest line answered and sent.
fn take_line(
    out: &mut impl Write,
    steps: &mut [Step; NODES],
    line: &[u8],
    count: u64,
) -> io::Result<()> {
    let [letter, from, to, _] = *line else {
        return Ok(());
    };
    let from = node_at(from);
    let to = node_at(to);
    let node = steps[to].node;
    let step = event(letter, steps[from], to, node).unwrap_or_else(|why| refused(node, why));
    out.write_all(line)?;
    print_answer(out, step.answer, count)?;
    print_sends(out, step, from)?;
    steps[to] = step;
    Ok(())
}

// Takes the lines of a script, each of four bytes; each node is set up by a line of its own.
fn run(out: &mut impl Write, script: &[u8]) -> io::Result<()> {
    let mut steps = [fresh_step(0); NODES];
    for (line, count) in script.chunks(4).zip(1..) {
        take_line(out, &mut steps, line, count)?;
    }
    Ok(())
}

// Lines 1 to 9: a write, settled with node 1; the last message comes twice.
// Lines 10 to 20: a crash, the return with two tables, and the write-back, accepted; the last message comes twice.
// Lines 21 to 28: two tables that disagree on the row of node 2, and the return stops.
// Lines 29 to 33: another start, a late table of the earlier one, and a table that comes twice.
// Lines 34 to 36: node 2 starts too, and a node that is Fetching does not answer its Fetch.
fn main(rt: HostRuntime) -> io::Result<()> {
    run(
        &mut rt.stdout(),
        b"n00 n11 n22 w00 m01 m10 m01 m10 m10 c00 s00 m01 m02 m10 m20 m01 m10 m01 m10 m10 x11 x22 c00 s00 m01 m02 m10 m20 s00 m01 m20 m10 m10 c22 s22 m20 ",
    )
}

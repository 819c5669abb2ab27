// The state of a drill between pieces of its script, and the reader of its lines.
#![tactic(auto)]

mod line_reader;

ghost use Rattle.std.specs.Prelude.{◌+◌, ◌<◌, ◌≤◌, ◌^◌, ◌≡◌, length, take};
ghost use Rattle.answers.specs.Output.{line_room};
ghost use Rattle.drill_state.specs.Drill.{last_output};
ghost use Rattle.drill_state.specs.Feeding.{at_start};
ghost use Rattle.drill_state.specs.Turn.{no_group};

use answers::print_line;
use item::Incarnation;
pub use line_reader::{Position, first_line, next_line};
use protocol::{Answer, Node};
use script::LineBuffer;

// A drill between two lines: how many nodes its group has, 0 while no group stands, and the nodes held, of which the
// first ones are the group's table. The store is lent beside it.
// Kept: fixed memory for the nodes; no `Option` for n, since with none the first 0 nodes are the table, and each definition would
// have a case for it.
#[derive(Clone, Copy)]
pub struct Drill {
    pub n: u64,
    pub nodes: [Node; item::MAX_NODES],
}

// What a line prints after its count, its answer or that it is unread, and the drill afterwards.
#[derive(Clone, Copy)]
pub struct Turn {
    pub reply: Option<Answer>,
    pub drill: Drill,
}

impl Drill {
    // As a drill begins: no group stands.
    #[tactic(auto, unfolding(crate::specs::Turn::no_group, protocol::specs::Table::no_node))]
    pub fn none() -> Drill
        ensures { result ≡ no_group }
    {
        let node = Node::blank(0, 0, Incarnation(0));
        Drill {
            n: 0,
            nodes: [node; item::MAX_NODES],
        }
    }
}

// A drill in its script: how many lines have ended, and what has come of the next one.
#[derive(Clone, Copy)]
pub struct Progress {
    pub count: u64,
    pub pending: LineBuffer,
    pub drill: Drill,
}

// How far a piece of the script was taken, how many bytes were printed for it, and where the drill stands then.
#[derive(Clone, Copy)]
pub struct Fed {
    pub next: usize,
    pub at: usize,
    pub progress: Progress,
}

impl Progress {
    // The beginning of a script.
    #[tactic(auto, unfolding(crate::specs::Feeding::at_start))]
    pub fn start() -> Progress
        ensures { result ≡ at_start }
    {
        Progress {
            count: 0,
            pending: LineBuffer::none(),
            drill: Drill::none(),
        }
    }
}

// The end of the script: an unended last line prints `unread`. Gives how many bytes were printed.
#[tactic(auto, unfolding(crate::specs::Drill::last_output))]
pub fn finish(last: Progress, out: &mut [u8]) -> usize
    ensures upper_bound { result ≤ length out.new }
    ensures out_after { last.count + 1 < 2 ^ 64 → (line_room ≤ length out.old → take result out.new ≡ last_output last.count last.pending.len) }
{
    let pending = last.pending;
    if pending.len == 0 {
        return 0;
    }
    if last.count == u64::MAX {
        return 0;
    }
    print_line(out, 0, last.count + 1, None)
}

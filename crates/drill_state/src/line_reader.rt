// A drill's script, read up to the next line that asks something of the group, and the answers printed. It sees neither
// nodes nor store.
ghost use Rattle.std.specs.Prelude.{ℕ, ◌≡◌, List};
ghost use Rattle.drill_state.specs.Turn.{size_after};
ghost use Rattle.drill_state.specs.Position.{Onward, Reached, asked_by, nothing_asked, size_then};
ghost use Rattle.drill_state.specs.Steps.{Answers, Reads};

use crate::Progress;
use answers::{has_room, print_line};
use protocol::Answer;
use script::{Asked, Line, LineBuffer};

// Where a drill stands in a piece of its script: what was taken of the piece, how many bytes were printed for it, how
// many lines have ended, what has come of the next one, and how many nodes the group has. Where the last line ended asks
// something of the group, its answer is not printed yet.
#[derive(Clone, Copy)]
pub struct Position {
    pub next: usize,
    pub at: usize,
    pub count: u64,
    pub pending: LineBuffer,
    pub n: u64,
    pub asked: Option<Asked>,
}

// How many nodes the group has after a set-up that was answered so.
fn size_after(n: u64, before: u64, answer: Answer) -> u64
    ensures { result ≡ size_after n before answer }
{
    match answer {
        Answer::Refused(_) => before,
        _ => n,
    }
}

// How many nodes the group has after what is asked was answered so.
#[tactic(auto, unfolding(crate::specs::Position::size_then))]
fn size_then(asked: Option<Asked>, before: u64, answer: Answer) -> u64
    ensures { result ≡ size_then asked before answer }
{
    match asked {
        Some(Asked::SetUp(n)) => size_after(n, before, answer),
        _ => before,
    }
}

// What the line asks where the group has n nodes: nothing, if it is unread, and so is an event before the first accepted
// `n`, where n is 0.
#[tactic(auto, unfolding(crate::specs::Position::asked_by, crate::specs::Position::asked_of, crate::specs::Turn::line_for))]
fn asked_by(n: u64, line: Option<Line>) -> Option<Asked>
    ensures { result ≡ asked_by n line }
{
    match line? {
        Line::SetUp(k) => Some(Asked::SetUp(k)),
        Line::Call(event) => {
            if n == 0 {
                return None;
            }
            Some(Asked::Call { n, event })
        }
    }
}

// Reads on up to the end of a line that asks something; a line that is unread is answered at once. It stops before a
// line feed where `out` has no room for another line, and where no count is left.
fn read_on(piece: &[u8], from: Position, out: &mut [u8]) -> Position
    ensures { Reads piece.now out.old (nothing_asked from) out.new result }
{
    let mut here = Position {
        asked: None,
        ..from
    };
    // Kept: where it stops is part of what it gives, so a `for` would count the same place beside its items.
    while here.next < piece.len() {
        let b = piece[here.next];
        let in_line = b != b'\n';
        if in_line {
            here.pending.push(b);
            here.next += 1;
            continue;
        }
        if !has_room(out, here.at) {
            break;
        }
        if here.count == u64::MAX {
            break;
        }
        let asked = asked_by(here.n, here.pending.read());
        here.pending = LineBuffer::none();
        here.count += 1;
        here.next += 1;
        if asked.is_some() {
            here.asked = asked;
            return here;
        }
        here.at = print_line(out, here.at, here.count, None);
    }
    here
}

// Begins a piece: reads up to the first line that asks something.
pub fn first_line(piece: &[u8], start: Progress, out: &mut [u8]) -> Position
    ensures { ((store : List ℕ) → Reached piece.now start store out.new result start.drill.nodes store) × Onward piece.now 0 out.new result }
{
    let from = Position {
        next: 0,
        at: 0,
        count: start.count,
        pending: start.pending,
        n: start.drill.n,
        asked: None,
    };
    read_on(piece, from, out)
}

// Prints the answer of what was asked, and reads up to the next line that asks something.
pub fn next_line(piece: &[u8], position: Position, answer: Answer, out: &mut [u8]) -> Position
    ensures { Answers piece.now out.old position answer out.new result }
{
    let at = print_line(out, position.at, position.count, Some(answer));
    let n = size_then(position.asked, position.n, answer);
    read_on(piece, Position { at, n, ..position }, out)
}

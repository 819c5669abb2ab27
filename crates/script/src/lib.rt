// The drill's script: its input lines read, and what a line asks of the group.
#![tactic(auto)]

mod buffer;
mod decimal;

ghost use Rattle.std.specs.Prelude.{◌≡◌, ◌==◌, position};
ghost use Rattle.script.specs.Bytes.{space};
ghost use Rattle.script.specs.Line.{lettered, line_of, with_number, write_of};

pub use buffer::LineBuffer;
use decimal::number_in;
use item::Tag;
use protocol::Event;

// What an input line asks for. Where a line has none of these forms, there is no `Line`.
#[derive(Clone, Copy)]
pub enum Line {
    // A group of this many nodes, set up.
    SetUp(u64),
    Call(Event),
}

// What a line asks of the group: the set-up of a group of so many nodes, or an event of the group of n that stands.
#[derive(Clone, Copy)]
pub enum Asked {
    SetUp(u64),
    Call { n: u64, event: Event },
}

// What the line asks for: a letter, a space, and the numbers that the letter takes, separated by one space.
#[tactic(auto, unfolding(crate::specs::Line::line_of))]
fn read_line(s: &[u8]) -> Option<Line>
    ensures { result ≡ line_of s.now }
{
    if s.len() < 2 {
        return None;
    }
    if s[1] != b' ' {
        return None;
    }
    lettered_line(s[0], &s[2..])
}

// What a letter asks for with what stands after its space.
#[tactic(auto, unfolding(crate::specs::Line::lettered, crate::specs::Line::one_number))]
fn lettered_line(letter: u8, rest: &[u8]) -> Option<Line>
    ensures { result ≡ lettered letter rest.now }
{
    if letter == b'w' {
        return write_line(rest);
    }
    with_number(letter, number_in(rest)?)
}

// What a letter that takes one number asks for.
// Kept: a match, which makes a value for each letter and runs no step.
#[tactic(auto, unfolding(crate::specs::Line::with_number))]
fn with_number(letter: u8, v: u64) -> Option<Line>
    ensures { result ≡ with_number letter v }
{
    match letter {
        b'n' => Some(Line::SetUp(v)),
        b'r' => Some(Line::Call(Event::Retry { node: v })),
        b'c' => Some(Line::Call(Event::Crash { node: v })),
        b's' => Some(Line::Call(Event::Start { node: v })),
        b'd' => Some(Line::Call(Event::Deliver { record: v })),
        b'x' => Some(Line::Call(Event::Drop { record: v })),
        _ => None,
    }
}

// A Write: a node and a tag, separated by a space.
fn write_line(s: &[u8]) -> Option<Line>
    ensures { result ≡ write_of s.now }
{
    let k = first_space(s)?;
    let node = number_in(&s[..k])?;
    let tag = Tag(number_in(&s[k + 1..])?);
    Some(Line::Call(Event::Write { node, tag }))
}

// Where the first space stands.
fn first_space(s: &[u8]) -> Option<usize>
    ensures { result ≡ position (λ b. b == space) s.now }
{
    s.iter().position(|b| *b == b' ')
}

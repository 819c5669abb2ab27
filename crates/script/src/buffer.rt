// A line of the drill's script, gathered from bytes that come one by one, and read.
ghost use Rattle.std.specs.Prelude.{◌≡◌};
ghost use Rattle.script.specs.LineBuffer.{none_yet, buffered_line, pushed};

use crate::{Line, read_line};

// The bytes of the present line that have come so far. A line of more than 64 bytes is no longer than 64 here; both
// are unread, as every line of more than 43 bytes is.
// Kept: fixed memory is a rule of the project, so the bytes stand beside their number.
#[derive(Clone, Copy)]
pub struct LineBuffer {
    pub bytes: [u8; LineBuffer::MOST],
    pub len: usize,
}

impl LineBuffer {
    // The most bytes that are kept of a line.
    pub const MOST: usize = 64;

    // A line of which nothing has come.
    #[tactic(auto, unfolding(crate::specs::LineBuffer::none_yet))]
    pub fn none() -> LineBuffer
        ensures { result ≡ none_yet }
    {
        LineBuffer {
            bytes: [0; LineBuffer::MOST],
            len: 0,
        }
    }

    // One more byte comes.
    #[tactic(auto, unfolding(crate::specs::LineBuffer::pushed))]
    pub fn push(&mut self, b: u8)
        ensures { self.new ≡ pushed self.old b }
    {
        let len = self.len;
        if len < LineBuffer::MOST {
            self.bytes[len] = b;
            self.len = len + 1;
        }
    }

    // What the bytes that have come ask for, as a whole line.
    #[tactic(auto, unfolding(crate::specs::LineBuffer::buffered_line))]
    pub fn read(&self) -> Option<Line>
        ensures { result ≡ buffered_line self.now }
    {
        read_line(self.bytes.get(..self.len)?)
    }
}

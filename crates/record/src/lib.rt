// One record of the message store: its kinds and layout, what reading and writing give, and the theorems that they undo each
// other.
#![tactic(auto)]

pub mod kinds;
pub mod layout;

ghost use Rattle.record.specs.RoundTrip.{ReadsBack, WritesBack, Differ};

// The bytes of a record.
pub const SIZE: usize = layout::SIZE;

// Reading what was written gives it back: the message, its rows with zero items after them, and next.
pub fn reads_back()
    ensures { ReadsBack }
{}

// Writing what was read gives the bytes back, next and the address byte included.
pub fn writes_back()
    ensures { WritesBack }
{}

// Equal bytes are of one message, with one next and the same rows.
pub fn differ()
    ensures { Differ }
{}

// The message of one record, written at any place of any slice. A record that does not lie whole within the slice is not
// written.
// Kept: a slice and the number of a record in it, as document 01 names records; any slice and any number may come.
#![tactic(auto)]

mod bytes;
mod fields;
mod rows;

ghost use Rattle.std.specs.Prelude.{◌≡◌};
ghost use Rattle.record.specs.Layout.{with_record};
ghost use Rattle.record.specs.Record.{record_bytes};

pub use bytes::write_record;
pub use fields::fields_of;
use item::Item;
use message::Envelope;
use record::{SIZE, layout};

// Record `i` becomes this message, with `next` after it on its chain: of the rows as many as the message has in a
// group of `n`, and zeros after them.
pub fn write(
    s: &mut [u8],
    i: usize,
    n: usize,
    next: u16,
    envelope: Envelope,
    rows: [Item; item::MAX_NODES],
)
    ensures { s.new ≡ with_record s.old i (record_bytes n next envelope rows) }
{
    let Some(a) = layout::start_of(s.len(), i) else {
        return;
    };
    let held = rows::held_rows(envelope.message, n, rows);
    let fields = fields::fields_of(envelope);
    bytes::write_record(&mut s[a..a + SIZE], next, fields, held);
}

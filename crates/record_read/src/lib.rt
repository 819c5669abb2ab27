// The message of one record, read at any place of any slice. A record that does not lie whole within the slice is a fault.
// Kept: a slice and the number of a record in it, as document 01 names records; any slice and any number may come.
#![tactic(auto)]

pub mod endpoints;
mod fields;
mod items;
mod kind;
mod validity;

ghost use Rattle.std.specs.Prelude.{◌≡◌};
ghost use Rattle.record.specs.Layout.{record_of};
ghost use Rattle.record.specs.Record.{read_record};

pub use fields::read_fields;
pub use items::rows;
pub use kind::is_known;
use message::Envelope;
use record::{SIZE, layout};
pub use validity::{rows_of_kind, zero_after_rows};

// The message in a record.
#[tactic(auto, unfolding(record::specs::Record::read_record, record::specs::Record::read_as))]
fn read_record(r: &[u8; SIZE], n: usize) -> Option<Envelope>
    ensures { result ≡ read_record n r.now }
{
    let fields = fields::read_fields(r);
    let message = kind::message_of(fields)?;
    if !validity::zero_after_rows(r, n) {
        return None;
    }
    Some(Envelope {
        sender: fields.sender,
        addressee: fields.addressee,
        incarnation: fields.incarnation,
        message,
    })
}

// The message in record `i`, for a group of `n`, or a fault. Sender, addressee and next are not judged.
pub fn read(s: &[u8], i: usize, n: usize) -> Option<Envelope>
    ensures { result ≡ read_record n (record_of s.now i) }
{
    read_record(layout::record_at(s, i)?, n)
}

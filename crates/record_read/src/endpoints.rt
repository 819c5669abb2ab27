// The sender and the addressee of the message in one record, read from the record's bytes as a slice of its own. A pass over
// a store asks this of every record on an inbox chain.
ghost use Rattle.std.specs.Prelude.{◌≡◌};
ghost use Rattle.record.specs.Record.{read_record};
ghost use Rattle.record_read.specs.Ends.{ends_of};

use crate::{fields, validity};

// The ends of a message.
#[derive(Clone, Copy)]
pub struct Ends {
    pub sender: usize,
    pub addressee: usize,
}

// The ends of the message in a record of a group of `n`, if it is one. Neither of the two is judged.
pub fn read(r: &[u8], n: usize) -> Option<Ends>
    ensures { result ≡ ends_of (read_record n r.now) }
{
    if !validity::is_readable(r, n) {
        return None;
    }
    let fields = fields::read_fields(r);
    Some(Ends {
        sender: fields.sender,
        addressee: fields.addressee,
    })
}

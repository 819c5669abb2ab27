// A store over lent bytes set up: every record free. Bytes that are not as long as a store stay as they are.
ghost use Rattle.std.specs.Prelude.{◌≡◌};
ghost use Rattle.store.specs.Records.{record_count, records_of};
ghost use Rattle.store.specs.Change.{set_up};
ghost use Rattle.store_change.specs.Linked.{linked_records};

use endian::zeros;
use store_access::{head, links};

// Every record is cleared, and those from 1 on are linked to one chain, each to the one after it.
fn link_free(s: &mut [u8; store::LENGTH])
    ensures { records_of s.new ≡ linked_records record_count }
{
    zeros::clear(s);
    for i in 1..store::RECORDS - 1 {
        links::set_next(s, i, i + 1);
    }
}

// A store of a group of `n` with every record free.
pub fn set_up(s: &mut [u8], n: usize)
    ensures { s.new ≡ set_up n s.old }
{
    let Some(store) = s.as_mut_array() else {
        return;
    };
    link_free(store);
    head::set_first_free(store, 1);
    head::set_group_size(store, n);
}

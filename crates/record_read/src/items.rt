// The rows of one record, read at any place of any slice. A record that does not lie whole within the slice has zero items.
// Kept: a slice and the number of a record in it, as document 01 names records; any slice and any number may come.
ghost use Rattle.std.specs.Prelude.{◌≡◌};
ghost use Rattle.record.specs.Layout.{record_of, rows_of};

use crate::fields;
use item::Item;
use record::layout;

// The fifteen rows of record `i`, used or not.
pub fn rows(s: &[u8], i: usize) -> [Item; item::MAX_NODES]
    ensures { result ≡ rows_of (record_of s.now i) }
{
    let Some(r) = layout::record_at(s, i) else {
        return [Item::zero(); item::MAX_NODES];
    };
    fields::read_rows(r)
}

// The bytes of one record: where each field stands. They are read in `record_read` and written in `record_write`.
ghost use Rattle.std.specs.Prelude.{◌≡◌, ◌+◌, ◌*◌, ◌≤◌, MatchOption, SomeIff, [], length};
ghost use Rattle.record.specs.Layout.{record_size, record_of};

use item::Tag;

// The bytes of a record.
pub const SIZE: usize = 272;

// Where each field begins.
pub const NEXT_AT: usize = 0;

pub const KIND_AT: usize = 2;

pub const ADDRESS_AT: usize = 3;

pub const INCARNATION_AT: usize = 4;

pub const OTHER_AT: usize = 8;

pub const ATTEMPT_AT: usize = 12;

pub const ITEM_AT: usize = 16;

pub const ROWS_AT: usize = 32;

// An item is its index and then its tag, in a row as in the record itself.
pub const INDEX_SIZE: usize = 8;

pub const ROW_SIZE: usize = INDEX_SIZE + Tag::SIZE;

// Record `i` of the bytes; none unless it lies whole within them.
// Kept: a slice and the number of a record in it, as document 01 names records; any slice and any number may come.
pub fn record_at(s: &[u8], i: usize) -> Option<&[u8; SIZE]>
    ensures { MatchOption result (record_of s.now i ≡ []) (λ r. (r.now ≡ record_of s.now i) × (length r.now ≡ record_size)) }
{
    s.as_chunks().0.get(i)
}

// Where record `i` begins in so many bytes; none unless it lies whole within them.
// Kept: lent to be written, as `record_at` lends it, what the bytes become got no proof (tried: `split_at_mut_checked`).
pub fn start_of(len: usize, i: usize) -> Option<usize>
    ensures { SomeIff result (i * record_size + record_size ≤ len) (i * record_size) }
{
    if len / SIZE <= i {
        return None;
    }
    Some(i * SIZE)
}

// Whether the bytes of one record, as a slice of its own, are a message. A pass over a store asks this of every record on
// an inbox chain.
ghost use Rattle.std.specs.Prelude.{◌≡◌, ◌+◌, ◌*◌, ◌≤◌, drop};
ghost use Rattle.item.specs.Maxima.{max_nodes};
ghost use Rattle.endian.specs.Zero.{all_zero};
ghost use Rattle.record.specs.Layout.{rows_at, row_size};
ghost use Rattle.record_read.specs.Readable.{readable, rows_of_kind, zero_after_kind};

use crate::{fields, kind};
use endian::zeros;
use record::kinds::TABLE;
use record::layout;

// How many rows a record of this kind has in a group of `n`.
// Kept: beside `record_write::rows_held`, which takes a message; a byte that is read may be the kind of none. What is alike in
// both is `min`.
#[tactic(auto, unfolding(crate::specs::Readable::rows_of_kind))]
pub fn rows_of_kind(kind: u8, n: usize) -> usize
    ensures { result ≡ rows_of_kind kind n }
{
    if kind != TABLE {
        return 0;
    }
    n.min(item::MAX_NODES)
}

// Whether every byte after the first `held` rows of a record is 0. Where none is held, as in most messages, the first row is
// tested by its two numbers, so that what is left is a fixed number of bytes, which the compiler tests in whole blocks.
fn zero_from_row(r: &[u8; layout::SIZE], held: usize) -> bool
    requires { held ≤ max_nodes }
    ensures { result ≡ all_zero (drop (rows_at + held * row_size) r.now) }
{
    if held != 0 {
        let from = layout::ROWS_AT + held * layout::ROW_SIZE;
        return zeros::is_zero(&r[from..]);
    }
    if endian::read::<u64>(r, layout::ROWS_AT) != 0 {
        return false;
    }
    if endian::read::<u64>(r, layout::ROWS_AT + layout::INDEX_SIZE) != 0 {
        return false;
    }
    zeros::is_zero(&r[layout::ROWS_AT + layout::ROW_SIZE..])
}

// Whether every byte after the rows of a record is 0 in a group of `n`; not so in bytes that are not as many as a record has.
#[tactic(auto, unfolding(crate::specs::Readable::zero_after_kind))]
pub fn zero_after_rows(r: &[u8], n: usize) -> bool
    ensures { result ≡ zero_after_kind n r.now }
{
    let Ok(r) = <&[u8; layout::SIZE]>::try_from(r) else {
        return false;
    };
    zero_from_row(r, rows_of_kind(r[layout::KIND_AT], n))
}

// Whether the bytes are a message in a group of `n`. Sender, addressee and next are not judged.
pub fn is_readable(r: &[u8], n: usize) -> bool
    ensures { result ≡ readable n r.now }
{
    zero_after_rows(r, n) && kind::is_known(fields::read_fields(r))
}

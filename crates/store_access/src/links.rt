// The link of one record to the next on its chain, and records cleared, at any place of any slice. A record that does not
// lie whole within the slice has no next, is not zero and is not written.
// Kept: a slice and the number of a record in it, as document 01 names records; any slice and any number may come.
ghost use Rattle.std.specs.Prelude.{◌≡◌, drop};
ghost use Rattle.endian.specs.Zero.{all_zero};
ghost use Rattle.record.specs.Layout.{kind_at, record_of, with_record, next_of};
ghost use Rattle.record.specs.Record.{with_next, no_record, zero_after_next};

use endian::zeros;
use record::layout;

// The record after record `i` on its chain, 0 at the end.
// Kept: 0 is document 01's end of a chain in the bytes, and as a link it is written back as it is.
#[tactic(auto, unfolding(record::specs::Layout::next_of, endian::specs::Number::number_at, endian::specs::Number::value, endian::specs::Part::part, endian::specs::Part::whole))]
pub fn next(s: &[u8], i: usize) -> usize
    ensures { result ≡ next_of (record_of s.now i) }
{
    let Some(r) = layout::record_at(s, i) else {
        return 0;
    };
    usize::from(endian::read::<u16>(r, layout::NEXT_AT))
}

// `next` modulo 65,536 comes after record `i`; no other byte changes.
#[tactic(auto, unfolding(record::specs::Record::with_next))]
pub fn set_next(s: &mut [u8], i: usize, next: usize)
    ensures { s.new ≡ with_record s.old i (with_next (record_of s.old i) next) }
{
    let Some(a) = layout::start_of(s.len(), i) else {
        return;
    };
    let low = (next % 65536) as u16;
    endian::write(&mut s[a..a + record::SIZE], layout::NEXT_AT, low);
}

// Record `i` becomes zeros.
#[tactic(auto, unfolding(record::specs::Record::no_record))]
pub fn clear(s: &mut [u8], i: usize)
    ensures { s.new ≡ with_record s.old i no_record }
{
    let Some(a) = layout::start_of(s.len(), i) else {
        return;
    };
    zeros::clear(&mut s[a..a + record::SIZE]);
}

// Whether a record is zero after next: its first eight bytes are no more than next, the next eight are 0, and what is left is
// a fixed number of bytes, which the compiler tests in whole blocks.
fn blank(r: &[u8; record::SIZE]) -> bool
    ensures { result ≡ all_zero (drop kind_at r.now) }
{
    let next = u64::from(endian::read::<u16>(r, layout::NEXT_AT));
    if endian::read::<u64>(r, layout::NEXT_AT) != next {
        return false;
    }
    if endian::read::<u64>(r, layout::OTHER_AT) != 0 {
        return false;
    }
    zeros::is_zero(&r[layout::ITEM_AT..])
}

// Whether record `i` is zero after next, as a free one is.
#[tactic(auto, unfolding(record::specs::Record::zero_after_next))]
pub fn zero_after_next(s: &[u8], i: usize) -> bool
    ensures { result ≡ zero_after_next (record_of s.now i) }
{
    let Some(r) = layout::record_at(s, i) else {
        return false;
    };
    blank(r)
}

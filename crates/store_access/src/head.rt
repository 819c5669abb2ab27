// The head of a store: record 0. Its fields are read and changed only here. A head that does not lie whole within the slice
// is not changed.
// Kept: 0 where there is no record, as document 01 has it in the bytes; as a link it is written back as it is. A slice that may
// be no store, with a place or a number in it, as the head's layout has them.
ghost use Rattle.std.specs.Prelude.{◌≡◌, ◌%◌, set};
ghost use Rattle.endian.specs.Number.{with_number};
ghost use Rattle.record.specs.Layout.{record_of, with_record};
ghost use Rattle.store.specs.Records.{records_of};
ghost use Rattle.store.specs.Head.{free_at, size_at, inbox_at, first_free, group_size, first_of};

// Where each field begins.
const FREE_AT: usize = 0;

const SIZE_AT: usize = 2;

pub const SPARE_AT: usize = 3;

pub const INBOXES_AT: usize = 4;

// The bytes of each node's first inbox record, and how many of them the head has place for.
pub const INBOX_SIZE: usize = 2;

pub const INBOXES: usize = (record::SIZE - INBOXES_AT) / INBOX_SIZE;

// The first free record, 0 if there is none.
#[tactic(auto, unfolding(store::specs::Head::first_free))]
pub fn first_free(s: &[u8]) -> usize
    ensures { result ≡ first_free (records_of s.now) }
{
    usize::from(endian::read::<u16>(s, FREE_AT))
}

// The size of the group.
#[tactic(auto, unfolding(store::specs::Head::group_size))]
pub fn group_size(s: &[u8]) -> usize
    ensures { result ≡ group_size (records_of s.now) }
{
    let Some(n) = s.get(SIZE_AT) else {
        return 0;
    };
    usize::from(*n)
}

// The first record of node `k`'s inbox, 0 if it is empty.
#[tactic(auto, unfolding(store::specs::Head::first_of, store::specs::Head::inbox_at))]
pub fn first_of(s: &[u8], k: usize) -> usize
    ensures { result ≡ first_of (records_of s.now) k }
{
    if INBOXES <= k {
        return 0;
    }
    usize::from(endian::read::<u16>(s, INBOXES_AT + k * INBOX_SIZE))
}

// `i` modulo 65,536 becomes the number of the head in the two bytes from `at`.
fn set_number(s: &mut [u8], at: usize, i: usize)
    ensures { s.new ≡ with_record s.old 0 (with_number 2 (record_of s.old 0) at i) }
{
    if s.len() < record::SIZE {
        return;
    }
    endian::write(&mut s[0..record::SIZE], at, (i % 65536) as u16);
}

// `i` modulo 65,536 becomes the first free record.
pub fn set_first_free(s: &mut [u8], i: usize)
    ensures { s.new ≡ with_record s.old 0 (with_number 2 (record_of s.old 0) free_at i) }
{
    set_number(s, FREE_AT, i);
}

// `i` modulo 65,536 becomes the first record of node `k`'s inbox.
#[tactic(auto, unfolding(store::specs::Head::inbox_at))]
pub fn set_first_of(s: &mut [u8], k: usize, i: usize)
    ensures { s.new ≡ with_record s.old 0 (with_number 2 (record_of s.old 0) (inbox_at k) i) }
{
    if INBOXES <= k {
        return;
    }
    set_number(s, INBOXES_AT + k * INBOX_SIZE, i);
}

// `n` modulo 256 becomes the size of the group.
pub fn set_group_size(s: &mut [u8], n: usize)
    ensures { s.new ≡ with_record s.old 0 (set (record_of s.old 0) size_at (n % 256)) }
{
    if s.len() < record::SIZE {
        return;
    }
    s[SIZE_AT] = (n % 256) as u8;
}

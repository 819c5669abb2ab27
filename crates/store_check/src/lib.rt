// Whether the store is sound: its head, each chain, and the bytes between.
#![tactic(auto)]

mod chain;

ghost use Rattle.std.specs.Prelude.{◌≡◌, ℕ, Some, option_map};
ghost use Rattle.store.specs.Records.{record_count, records_of};
ghost use Rattle.store.specs.Head.{head_zero};
ghost use Rattle.store.specs.Chain.{walked};
ghost use Rattle.store.specs.Sound.{walk_inboxes, all_passed, head_passed, survey_of, survey};

use chain::{Free, Inbox, follow};
use endian::zeros;
use store::Survey;
use store_access::head;

// Whether the head is zero where no field of a group of its size stands.
#[tactic(auto, unfolding(store::specs::Head::inbox_at))]
fn head_zero(s: &[u8; store::LENGTH]) -> bool
    ensures { result ≡ head_zero (records_of s.now) }
{
    if s[head::SPARE_AT] != 0 {
        return false;
    }
    let n = head::group_size(s);
    if head::INBOXES <= n {
        return true;
    }
    let from = head::INBOXES_AT + n * head::INBOX_SIZE;
    zeros::is_zero(&s[from..record::SIZE])
}

// Before any chain is followed only the head counts as passed.
#[tactic(auto, unfolding(store::specs::Sound::head_passed))]
fn head_passed() -> [bool; store::RECORDS]
    ensures { result ≡ head_passed record_count }
{
    let mut passed = [false; store::RECORDS];
    passed[0] = true;
    passed
}

// The inboxes, one after the other, as long as all is well.
fn follow_inboxes(
    s: &[u8; store::LENGTH],
    n: usize,
    free: usize,
    passed: &mut [bool; store::RECORDS],
) -> Option<usize>
    ensures { option_map (walked passed.new) result ≡ walk_inboxes n n (records_of s.now) 0 (Some (walked passed.old free)) }
{
    let mut last = free;
    for k in 0..n {
        last = follow(s, &Inbox { n, owner: k }, head::first_of(s, k), passed)?;
    }
    Some(last)
}

// Whether every record was passed. All are joined, without a branch, so that the compiler takes them in blocks.
// Kept: beside `endian::zeros::is_zero`, which joins by another operation from another start.
#[tactic(auto, unfolding(store::specs::Sound::all_passed))]
fn all_passed(passed: &[bool]) -> bool
    ensures { result ≡ all_passed passed.now }
{
    let mut all = true;
    for p in passed {
        all &= *p;
    }
    all
}

// Whether a store is sound, and if so the size of its group and how many records are free.
#[tactic(auto, unfolding(store::specs::Sound::survey_of))]
fn check_records(s: &[u8; store::LENGTH]) -> Option<Survey>
    ensures { result ≡ survey_of (records_of s.now) }
{
    let n = head::group_size(s);
    if !item::valid_size(n) {
        return None;
    }
    if !head_zero(s) {
        return None;
    }
    let mut passed = head_passed();
    let free = follow(s, &Free, head::first_free(s), &mut passed)?;
    follow_inboxes(s, n, free, &mut passed)?;
    if !all_passed(&passed) {
        return None;
    }
    Some(Survey { n, free })
}

// Whether these bytes are a sound store, and if so the size of its group and how many records are free.
#[tactic(auto, unfolding(store::specs::Sound::survey, store::specs::Records::right_length))]
pub fn check_store(s: &[u8]) -> Option<Survey>
    ensures { result ≡ survey s.now }
{
    check_records(s.as_array()?)
}

// A message put into a store over lent bytes. Bytes that are not as long as a store stay as they are; whatever a store's
// bytes are, every call ends and stays inside them.
ghost use Rattle.std.specs.Prelude.{◌≡◌};
ghost use Rattle.store.specs.Records.{record_count, records_of, on_records};
ghost use Rattle.store.specs.Chain.{last_from};
ghost use Rattle.store.specs.Change.{appended, taken, put_in};

use item::Item;
use message::Envelope;
use std::num::wrapping_add_usize;
use store_access::{head, links, stride};

// The last record of the chain from record `first`.
// Kept: beside `removing::before_from`, which stops at another test and gives something else where a chain has no end; a method
// for both would take a closure for each. With one for the guess alone `store_check::chain::follow` is slower, as is said there.
fn last_from(s: &[u8; store::LENGTH], first: usize) -> usize
    ensures { result ≡ last_from record_count (records_of s.now) first }
{
    let mut i = first;
    let mut step = 1;
    for turn in 0..store::RECORDS {
        let guess = wrapping_add_usize(i, step);
        let after = links::next(s, i);
        if after == 0 {
            return i;
        }
        if after == guess {
            i = guess;
            continue;
        }
        step = stride::between(i, after);
        i = after;
    }
    i
}

// Record `i` stands at the end of node `k`'s inbox.
#[tactic(auto, unfolding(store::specs::Change::appended))]
fn append(s: &mut [u8; store::LENGTH], k: usize, i: usize)
    ensures { records_of s.new ≡ appended (records_of s.old) k i }
{
    let first = head::first_of(s, k);
    if first == 0 {
        head::set_first_of(s, k, i);
        return;
    }
    let last = last_from(s, first);
    links::set_next(s, last, i);
}

// The first free record leaves the free chain and becomes the message.
#[tactic(auto, unfolding(store::specs::Change::taken))]
fn take_free(s: &mut [u8; store::LENGTH], envelope: Envelope, rows: [Item; item::MAX_NODES])
    ensures { records_of s.new ≡ taken (records_of s.old) envelope rows }
{
    let n = head::group_size(s);
    let i = head::first_free(s);
    let after = links::next(s, i);
    head::set_first_free(s, after);
    record_write::write(s, i, n, 0, envelope, rows);
}

// The first free record takes the message, and stands at the end of the addressee's inbox. Where no record is free
// nothing changes.
#[tactic(auto, unfolding(store::specs::Change::put_in))]
fn put_into(s: &mut [u8; store::LENGTH], envelope: Envelope, rows: [Item; item::MAX_NODES])
    ensures { records_of s.new ≡ put_in (records_of s.old) envelope rows }
{
    let i = head::first_free(s);
    if i == 0 {
        return;
    }
    take_free(s, envelope, rows);
    append(s, envelope.addressee, i);
}

// The same in bytes that may be no store.
pub fn put(s: &mut [u8], envelope: Envelope, rows: [Item; item::MAX_NODES])
    ensures { s.new ≡ on_records (λ rs. put_in rs envelope rows) s.old }
{
    let Some(store) = s.as_mut_array() else {
        return;
    };
    put_into(store, envelope, rows);
}

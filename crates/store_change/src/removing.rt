// A message dropped from a store over lent bytes. Bytes that are not as long as a store stay as they are; whatever a store's
// bytes are, every call ends and stays inside them.
ghost use Rattle.std.specs.Prelude.{◌≡◌};
ghost use Rattle.store.specs.Records.{record_count, records_of, on_records};
ghost use Rattle.store.specs.Chain.{before_from};
ghost use Rattle.store.specs.Change.{unlinked, freed, drop_in};

use std::num::wrapping_add_usize;
use store_access::{head, links, stride};

// The record before record `r` on the chain from record `first`, 0 if there is none.
// Kept: beside `putting::last_from`, for the reason that is given there; 0 where there is none, as the definition of a removal has
// it.
fn before_from(s: &[u8; store::LENGTH], r: usize, first: usize) -> usize
    ensures { result ≡ before_from record_count (records_of s.now) r first }
{
    let mut i = first;
    let mut step = 1;
    for turn in 0..store::RECORDS {
        if i == 0 {
            return 0;
        }
        let guess = wrapping_add_usize(i, step);
        let after = links::next(s, i);
        if after == r {
            return i;
        }
        if after == guess {
            i = guess;
            continue;
        }
        step = stride::between(i, after);
        i = after;
    }
    0
}

// Record `r` no longer stands on node `k`'s inbox.
#[tactic(auto, unfolding(store::specs::Change::unlinked))]
fn unlink(s: &mut [u8; store::LENGTH], k: usize, r: usize)
    ensures { records_of s.new ≡ unlinked (records_of s.old) k r }
{
    let first = head::first_of(s, k);
    let after = links::next(s, r);
    if first == r {
        head::set_first_of(s, k, after);
        return;
    }
    let before = before_from(s, r, first);
    links::set_next(s, before, after);
}

// Record `r` is cleared and becomes the first free record.
#[tactic(auto, unfolding(store::specs::Change::freed))]
fn free(s: &mut [u8; store::LENGTH], r: usize)
    ensures { records_of s.new ≡ freed (records_of s.old) r }
{
    let first = head::first_free(s);
    links::clear(s, r);
    links::set_next(s, r, first);
    head::set_first_free(s, r);
}

// Record `r` leaves the inbox of `owner`, is cleared and becomes the first free record.
pub fn drop_message(s: &mut [u8], owner: usize, r: u64)
    ensures { s.new ≡ on_records (λ rs. drop_in rs owner r) s.old }
{
    let Some(store) = s.as_mut_array() else {
        return;
    };
    unlink(store, owner, r as usize);
    free(store, r as usize);
}

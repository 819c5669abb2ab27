// One chain of a store followed from its first record on, each record judged as it is passed. The marks of the records
// passed are lent: a copy of them would take longer than a short chain.
// Kept: a slice and the number of a record in it, as document 01 names records; any slice and any number may come.
ghost use Rattle.std.specs.Prelude.{◌≡◌, Bool, List, ℕ, option_map};
ghost use Rattle.record.specs.Layout.{record_of};
ghost use Rattle.record.specs.Record.{zero_after_next};
ghost use Rattle.store.specs.Records.{record_count, records_of};
ghost use Rattle.store.specs.Chain.{walked, walk};
ghost use Rattle.store.specs.Sound.{belongs_to};

use record::layout;
use record_read::endpoints;
use std::num::wrapping_add_usize;
use store_access::{links, stride};

// Whether a record is a message to `owner` from another node of a group of `n`.
fn message_to(r: &[u8; record::SIZE], n: usize, owner: usize) -> bool
    ensures { result ≡ belongs_to n owner r.now }
{
    let Some(ends) = endpoints::read(r, n) else {
        return false;
    };
    ends.sender < n && ends.sender != ends.addressee && ends.addressee == owner
}

// A kind of chain, by what belongs on it.
pub trait Belongs {
    ghost belongs: { Self → List ℕ → Bool };

    // Whether record `i` belongs on the chain.
    fn has(&self, s: &[u8], i: usize) -> bool
        ensures { result ≡ belongs self.now (record_of s.now i) };
}

// The free chain.
#[derive(Clone, Copy)]
pub struct Free;

// The inbox of `owner` in a group of `n`.
#[derive(Clone, Copy)]
pub struct Inbox {
    pub n: usize,
    pub owner: usize,
}

impl Belongs for Free {
    ghost belongs = { λ _. zero_after_next };

    fn has(&self, s: &[u8], i: usize) -> bool {
        links::zero_after_next(s, i)
    }
}

impl Belongs for Inbox {
    ghost belongs = { λ inbox. belongs_to inbox.n inbox.owner };

    #[tactic(auto, unfolding(store::specs::Sound::belongs_to, store::specs::Sound::addressed_to, record::specs::Record::read_record))]
    fn has(&self, s: &[u8], i: usize) -> bool {
        let Some(r) = layout::record_at(s, i) else {
            return false;
        };
        message_to(r, self.n, self.owner)
    }
}

// A chain from record `first` is followed to its end: how many records it has, or nothing where it comes to a record that is not
// there, was passed before or does not belong on it.
// Kept: a `while` with a `continue` where the guess was right. A `for`, or a method for the guess, was tried: the compiler reads
// the link in its place, and the check of an empty store takes 1,492 ns for 1,349 (docs/DECISIONS.md, point 15).
pub fn follow<C: Belongs>(
    s: &[u8; store::LENGTH],
    chain: &C,
    first: usize,
    passed: &mut [bool; store::RECORDS],
) -> Option<usize>
    ensures { option_map (walked passed.new) result ≡ walk (C.belongs chain.now) record_count (records_of s.now) first passed.old 0 }
{
    let mut i = first;
    let mut step = 1;
    let mut count = 0;
    while count < store::RECORDS {
        if i == 0 {
            return Some(count);
        }
        if store::RECORDS <= i {
            return None;
        }
        let guess = wrapping_add_usize(i, step);
        if passed[i] {
            return None;
        }
        if !chain.has(s, i) {
            return None;
        }
        passed[i] = true;
        count += 1;
        let after = links::next(s, i);
        if after == guess {
            i = guess;
            continue;
        }
        step = stride::between(i, after);
        i = after;
    }
    if i != 0 {
        return None;
    }
    Some(count)
}

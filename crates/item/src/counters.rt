// The three counters and their comparisons.
// Kept: `at_largest` and `next` once for each counter. Of each no more than a line of the library is left, and a trait would
// state both definitions once more for each type.
ghost use Rattle.std.specs.Prelude.{◌≡◌};
ghost use Rattle.item.specs.Counter.{index_at_largest, next_index, incarnation_at_largest, next_incarnation, attempt_at_largest, next_attempt, earlier};

// The number of a write. An index, an incarnation and an attempt are separate counters.
#[derive(Clone, Copy, PartialEq, Eq, PartialOrd, Ord, Default)]
pub struct Index(pub u64);

// How often a node has started, counted from 1.
#[derive(Clone, Copy, PartialEq, Eq, PartialOrd, Ord, Default)]
pub struct Incarnation(pub u32);

// How often a node has sent a write in its present incarnation.
#[derive(Clone, Copy, PartialEq, Eq, PartialOrd, Ord, Default)]
pub struct Attempt(pub u32);

impl Index {
    pub const LARGEST: u64 = u64::MAX;

    // Whether no index is above this one.
    #[tactic(auto, unfolding(crate::specs::Counter::index_at_largest))]
    pub fn at_largest(self) -> bool
        ensures { result ≡ index_at_largest self }
    {
        self.0 == Index::LARGEST
    }

    // The index one above; the largest stays.
    #[tactic(auto, unfolding(crate::specs::Counter::next_index, crate::specs::Counter::index_at_largest))]
    pub fn next(self) -> Index
        ensures { result ≡ next_index self }
    {
        Index(self.0.saturating_add(1))
    }
}

impl Incarnation {
    pub const LARGEST: u32 = u32::MAX;

    // Whether no incarnation is above this one.
    #[tactic(auto, unfolding(crate::specs::Counter::incarnation_at_largest))]
    pub fn at_largest(self) -> bool
        ensures { result ≡ incarnation_at_largest self }
    {
        self.0 == Incarnation::LARGEST
    }

    // The incarnation one above; the largest stays.
    #[tactic(auto, unfolding(crate::specs::Counter::next_incarnation, crate::specs::Counter::incarnation_at_largest))]
    pub fn next(self) -> Incarnation
        ensures { result ≡ next_incarnation self }
    {
        Incarnation(self.0.saturating_add(1))
    }
}

impl Attempt {
    pub const LARGEST: u32 = u32::MAX;

    // Whether no attempt is above this one.
    #[tactic(auto, unfolding(crate::specs::Counter::attempt_at_largest))]
    pub fn at_largest(self) -> bool
        ensures { result ≡ attempt_at_largest self }
    {
        self.0 == Attempt::LARGEST
    }

    // The attempt one above; the largest stays.
    #[tactic(auto, unfolding(crate::specs::Counter::next_attempt, crate::specs::Counter::attempt_at_largest))]
    pub fn next(self) -> Attempt
        ensures { result ≡ next_attempt self }
    {
        Attempt(self.0.saturating_add(1))
    }
}

// Whether one pair of counters is earlier than another: by incarnation, then by attempt.
// Kept: it names document 01's "earlier than" where a tuple's `<` would not.
#[tactic(auto, unfolding(crate::specs::Counter::earlier))]
pub fn counters_earlier(
    incarnation: Incarnation,
    attempt: Attempt,
    than_incarnation: Incarnation,
    than_attempt: Attempt,
) -> bool
    ensures { result ≡ earlier incarnation attempt than_incarnation than_attempt }
{
    (incarnation, attempt) < (than_incarnation, than_attempt)
}

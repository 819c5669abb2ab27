// Tags, items and rows, the counters, the sizes of groups, and their comparisons.
#![tactic(auto)]

mod counters;

ghost use Rattle.std.specs.Prelude.{◌≡◌};
ghost use Rattle.item.specs.Counter.{same_attempt, same_incarnation};
ghost use Rattle.item.specs.Item.{tags_agree, ranks_below, same_item, zero_item};
ghost use Rattle.item.specs.Maxima.{valid_size};
ghost use Rattle.item.specs.Row.{same_row, zero_row};

pub use counters::{Attempt, Incarnation, Index, counters_earlier};

// The most nodes that a group may have, and so the rows that a node keeps.
pub const MAX_NODES: usize = 15;

// Whether a group may have n nodes: n is odd, and from 3 to the most.
#[tactic(auto, unfolding(crate::specs::Maxima::valid_size))]
pub fn valid_size(n: usize) -> bool
    ensures { result ≡ valid_size n }
{
    (3..=MAX_NODES).contains(&n) && n % 2 == 1
}

// What a write stores beside its index: the caller's digest, never computed with.
#[derive(Clone, Copy, PartialEq, Eq, Default)]
pub struct Tag(pub u64);

// An item (a term of document 01): an index with a tag.
#[derive(Clone, Copy, PartialEq, Eq, Default)]
pub struct Item {
    pub index: Index,
    pub tag: Tag,
}

// A row (a term of document 01): an item with the writer's incarnation and attempt that last stored it, and whether
// its greatest index has come with two tags.
#[derive(Clone, Copy, PartialEq, Eq, Default)]
pub struct Row {
    pub item: Item,
    pub incarnation: Incarnation,
    pub attempt: Attempt,
    // Kept: a fact about the row; none of its numbers depends on it.
    pub marked: bool,
}

impl Tag {
    // The bytes that a tag takes in a record.
    pub const SIZE: usize = 8;
}

impl Item {
    // Index 0, tag 0: what a node has before anything is settled.
    pub fn zero() -> Item
        ensures { result ≡ zero_item }
    {
        Item::default()
    }

    // Whether this item ranks below the item. Items rank by their index.
    // Kept: no `PartialOrd`, since an order has to tell apart what `==` does, and rank looks at no tag.
    #[tactic(auto, unfolding(crate::specs::Item::ranks_below, crate::specs::Counter::index_below))]
    pub fn ranks_below(self, item: Item) -> bool
        ensures { result ≡ ranks_below self item }
    {
        self.index < item.index
    }
}

impl Row {
    // The row of a writer of whom nothing is known.
    pub fn zero() -> Row
        ensures { result ≡ zero_row }
    {
        Row::default()
    }
}

// What the derived `==` compares: the number of a counter or a tag, index and tag of an item, every field of a row.
#[tactic(auto, unfolding(crate::specs::Row::same_row, crate::specs::Item::same_item, crate::specs::Item::tags_agree, crate::specs::Counter::same_incarnation, crate::specs::Counter::same_attempt))]
pub fn derived_equality()
    ensures incarnations { (i j : Incarnation) → ⟦<Incarnation as PartialEq>⟧.eq i j ≡ same_incarnation i j }
    ensures attempts { (a b : Attempt) → ⟦<Attempt as PartialEq>⟧.eq a b ≡ same_attempt a b }
    ensures tags { (t u : Tag) → ⟦<Tag as PartialEq>⟧.eq t u ≡ tags_agree t u }
    ensures items { (i j : Item) → ⟦<Item as PartialEq>⟧.eq i j ≡ same_item i j }
    ensures rows { (r s : Row) → ⟦<Row as PartialEq>⟧.eq r s ≡ same_row r s }
{}

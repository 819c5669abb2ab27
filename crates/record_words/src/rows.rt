// The rows that numbers say.
ghost use Rattle.std.specs.Prelude.{◌≡◌, ◌+◌, ◌<◌};
ghost use Rattle.record_words.specs.Numbers.{item_from, number_count, rows_from};

use crate::words::{COUNT, ROWS_FIRST};
use item::{Index, Item, Tag};

// The items of the rows.
// Kept: beside `record_read::rows`, for the reason that is given there.
pub fn rows_in(numbers: &[u64; COUNT]) -> [Item; item::MAX_NODES]
    ensures { result ≡ rows_from numbers.now }
{
    let mut items = [Item::zero(); item::MAX_NODES];
    for (j, row) in items.iter_mut().enumerate() {
        *row = item_in(numbers, ROWS_FIRST + 2 * j);
    }
    items
}

#[tactic(auto, unfolding(crate::specs::Numbers::item_from))]
fn item_in(numbers: &[u64; COUNT], at: usize) -> Item
    requires { at + 1 < number_count }
    ensures { result ≡ item_from numbers.now at }
{
    Item {
        index: Index(numbers[at]),
        tag: Tag(numbers[at + 1]),
    }
}

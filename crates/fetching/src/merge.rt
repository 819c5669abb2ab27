// The merge of fetched tables: what a node that is Fetching keeps of the tables it counts, row by row.
ghost use Rattle.std.specs.Prelude.{◌≡◌};
ghost use Rattle.protocol.specs.Merge.{merge_row, merge_rows, lowest_marked};

use item::{Item, Row};
use std::array;

// A row after one more table with this item for it. The first table's item is taken whatever the row is; later a
// greater index is taken, unmarked, a lower one changes nothing, and an equal one with another tag marks the row.
#[tactic(auto, unfolding(protocol::specs::Merge::merge_row, item::specs::Item::same_item, item::specs::Item::tags_agree))]
pub fn merge_row(first: bool, row: Row, item: Item) -> Row
    ensures { result ≡ merge_row first row item }
{
    if first || row.item.ranks_below(item) {
        return Row {
            item,
            ..Row::zero()
        };
    }
    if item.ranks_below(row.item) || item == row.item {
        return row;
    }
    Row {
        marked: true,
        ..row
    }
}

// Every row after one more table, whose items are in the order of the rows.
pub fn merge_rows(
    first: bool,
    rows: [Row; item::MAX_NODES],
    items: &[Item; item::MAX_NODES],
) -> [Row; item::MAX_NODES]
    ensures { result ≡ merge_rows first rows items.now }
{
    array::from_fn(|i| merge_row(first, rows[i], items[i]))
}

// The number of the lowest marked row, if one is marked.
#[tactic(auto, unfolding(protocol::specs::Merge::lowest_marked))]
pub fn lowest_marked(rows: &[Row; item::MAX_NODES]) -> Option<usize>
    ensures { result ≡ lowest_marked rows.now }
{
    rows.iter().position(|row| row.marked)
}

// The fields and the rows of one record read from its bytes, as a slice of its own. In a slice that is too short a field
// reads as 0.
// Kept: a slice and a place, where the layout has the field; a part of the slice would have to be shown to begin within it.
ghost use Rattle.std.specs.Prelude.{◌≡◌, ◌≤◌, get_or};
ghost use Rattle.record.specs.Layout.{record_size, item_in, fields_in, rows_of};

use item::{Attempt, Incarnation, Index, Item, Tag};
use record::kinds::Fields;
use record::layout;

fn byte_at(r: &[u8], at: usize) -> u8
    ensures { result ≡ get_or r.now at 0 }
{
    r.get(at).copied().unwrap_or(0)
}

#[tactic(auto, unfolding(record::specs::Layout::item_in))]
fn read_item(r: &[u8], at: usize) -> Item
    requires { at ≤ record_size }
    ensures { result ≡ item_in r.now at }
{
    Item {
        index: Index(endian::read(r, at)),
        tag: Tag(endian::read(r, at + layout::INDEX_SIZE)),
    }
}

// The fields of a record.
#[tactic(auto, unfolding(record::specs::Layout::fields_in))]
pub fn read_fields(r: &[u8]) -> Fields
    ensures { result ≡ fields_in r.now }
{
    let address = usize::from(byte_at(r, layout::ADDRESS_AT));
    Fields {
        kind: byte_at(r, layout::KIND_AT),
        sender: address / 16,
        addressee: address % 16,
        incarnation: Incarnation(endian::read(r, layout::INCARNATION_AT)),
        other: Incarnation(endian::read(r, layout::OTHER_AT)),
        attempt: Attempt(endian::read(r, layout::ATTEMPT_AT)),
        item: read_item(r, layout::ITEM_AT),
    }
}

// The rows of a record, used or not.
// Kept: beside `record_words::rows_in`, which reads numbers. What is alike in both is the array; each item is read in its own way.
pub fn read_rows(r: &[u8]) -> [Item; item::MAX_NODES]
    ensures { result ≡ rows_of r.now }
{
    let mut items = [Item::zero(); item::MAX_NODES];
    for (j, row) in items.iter_mut().enumerate() {
        *row = read_item(r, layout::ROWS_AT + j * layout::ROW_SIZE);
    }
    items
}

// The numbers of a record put into a lent array.
ghost use Rattle.std.specs.Prelude.{◌≡◌};
ghost use Rattle.endian.specs.Part.{with_part};
ghost use Rattle.record.specs.Layout.{rows_of};
ghost use Rattle.record_words.specs.Numbers.{field_numbers, number_count, numbers_of, row_numbers, rows_count, rows_first};

use crate::words::{COUNT, ROWS_FIRST};
use record::kinds::Fields;
use record::layout;

// The numbers before the rows.
#[tactic(auto, unfolding(crate::specs::Numbers::field_numbers))]
fn put_fields(numbers: &mut [u64; COUNT], next: u16, fields: Fields)
    ensures { numbers.new ≡ with_part rows_first numbers.old 0 (field_numbers next fields) }
{
    numbers[0] = u64::from(next);
    numbers[1] = u64::from(fields.kind);
    numbers[2] = fields.sender as u64;
    numbers[3] = fields.addressee as u64;
    numbers[4] = u64::from(fields.incarnation.0);
    numbers[5] = u64::from(fields.other.0);
    numbers[6] = u64::from(fields.attempt.0);
    numbers[7] = fields.item.index.0;
    numbers[8] = fields.item.tag.0;
}

// The numbers of the rows, straight from the bytes of a record.
#[tactic(auto, unfolding(crate::specs::Numbers::row_numbers))]
fn put_rows(numbers: &mut [u64; COUNT], r: &[u8])
    ensures { numbers.new ≡ with_part rows_count numbers.old rows_first (row_numbers (rows_of r.now)) }
{
    for j in 0..item::MAX_NODES {
        let place = layout::ROWS_AT + j * layout::ROW_SIZE;
        let at = ROWS_FIRST + 2 * j;
        numbers[at] = endian::read(r, place);
        numbers[at + 1] = endian::read(r, place + layout::INDEX_SIZE);
    }
}

// The numbers become next, the fields and the rows that stand in the bytes of a record.
pub fn put(numbers: &mut [u64; COUNT], next: u16, fields: Fields, r: &[u8])
    ensures { numbers.new ≡ with_part number_count numbers.old 0 (numbers_of next fields (rows_of r.now)) }
{
    put_fields(numbers, next, fields);
    put_rows(numbers, r);
}

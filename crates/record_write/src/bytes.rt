// One record written to its bytes, as a slice of its own. A slice that is too short is not written.
ghost use Rattle.std.specs.Prelude.{◌≡◌, ◌+◌, ◌*◌, ◌≤◌};
ghost use Rattle.item.specs.Maxima.{max_nodes};
ghost use Rattle.endian.specs.Part.{with_part};
ghost use Rattle.record.specs.Layout.{record_size, next_at, kind_at, rows_at, fields_size, row_size, item_bytes, address_byte, field_bytes, rows_bytes, layout_bytes};

use item::Item;
use record::kinds::Fields;
use record::layout;

fn write_item(r: &mut [u8; layout::SIZE], at: usize, item: Item)
    requires { at + row_size ≤ record_size }
    ensures { r.new ≡ with_part row_size r.old at (item_bytes item) }
{
    endian::write(r, at, item.index.0);
    endian::write(r, at + layout::INDEX_SIZE, item.tag.0);
}

// Sender and addressee in one byte, half for each.
#[tactic(auto, unfolding(record::specs::Layout::address_byte))]
fn address_byte(sender: usize, addressee: usize) -> u8
    ensures { result ≡ address_byte sender addressee }
{
    (sender % 16 * 16 + addressee % 16) as u8
}

fn write_fields(r: &mut [u8; layout::SIZE], fields: Fields)
    ensures { r.new ≡ with_part fields_size r.old kind_at (field_bytes fields) }
{
    r[layout::KIND_AT] = fields.kind;
    r[layout::ADDRESS_AT] = address_byte(fields.sender, fields.addressee);
    endian::write(r, layout::INCARNATION_AT, fields.incarnation.0);
    endian::write(r, layout::OTHER_AT, fields.other.0);
    endian::write(r, layout::ATTEMPT_AT, fields.attempt.0);
    write_item(r, layout::ITEM_AT, fields.item);
}

#[tactic(auto, unfolding(record::specs::Layout::rows_bytes))]
fn write_rows(r: &mut [u8; layout::SIZE], rows: [Item; item::MAX_NODES])
    ensures { r.new ≡ with_part (max_nodes * row_size) r.old rows_at (rows_bytes rows) }
{
    for (j, row) in rows.iter().enumerate() {
        write_item(r, layout::ROWS_AT + j * layout::ROW_SIZE, *row);
    }
}

// The record becomes next, the fields and the rows; a slice shorter than a record stays.
pub fn write_record(r: &mut [u8], next: u16, fields: Fields, rows: [Item; item::MAX_NODES])
    ensures { r.new ≡ with_part record_size r.old next_at (layout_bytes next fields rows) }
{
    let Some(r) = r.first_chunk_mut() else {
        return;
    };
    endian::write(r, layout::NEXT_AT, next);
    write_fields(r, fields);
    write_rows(r, rows);
}

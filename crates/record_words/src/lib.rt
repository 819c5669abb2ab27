// A record as numbers, for hosts.
#![tactic(auto)]

mod fields;
mod put;
mod rows;
mod words;

ghost use Rattle.std.specs.Prelude.{◌≡◌, cond};
ghost use Rattle.record_read.specs.Readable.{readable};
ghost use Rattle.record_words.specs.Numbers.{record_numbers};
ghost use Rattle.record_words.specs.Records.{bytes_written, may_read, may_write, numbers_read};

use fields::stated;
use put::put;
use record::{SIZE, layout};
use rows::rows_in;
use words::COUNT;
pub use words::reads_back;

// The numbers of a record that is readable in a group of `n`: its own fields and rows as they stand. If it is no message it
// gives false and no number has changed.
#[tactic(auto, unfolding(record::specs::Layout::next_of))]
fn read_numbers(r: &[u8], n: usize, numbers: &mut [u64; COUNT]) -> bool
    ensures { (result ≡ readable n r.now) × (numbers.new ≡ cond (readable n r.now) (record_numbers n r.now) numbers.old) }
{
    if !record_read::zero_after_rows(r, n) {
        return false;
    }
    let fields = record_read::read_fields(r);
    if !record_read::is_known(fields) {
        return false;
    }
    put(numbers, endian::read(r, layout::NEXT_AT), fields, r);
    true
}

// The numbers of record `record` of the bytes, read for a group of `n`: next, kind, sender, addressee, the sender's
// incarnation, the other incarnation, attempt, index, tag, and the index and tag of fifteen rows. Where there are not 39
// numbers, the record is not whole within the bytes, or it is no message, it gives false and no number has changed.
pub fn read_record(bytes: &[u8], record: u64, n: u64, numbers: &mut [u64]) -> bool
    ensures { (result ≡ may_read bytes.now «record» n numbers.old) × (numbers.new ≡ numbers_read bytes.now «record» n numbers.old) }
{
    let Some(numbers) = numbers.as_mut_array() else {
        return false;
    };
    let Some(r) = layout::record_at(bytes, record as usize) else {
        return false;
    };
    read_numbers(r, n as usize, numbers)
}

// Record `record` of the bytes becomes what the numbers say in a group of `n`, in the same order. Where the record is
// not whole within the bytes, there are not 39 numbers, one does not fit its field, or they are no message, it gives false
// and no byte has changed. A row that the message does not have must be 0.
pub fn write_record(bytes: &mut [u8], record: u64, n: u64, numbers: &[u64]) -> bool
    ensures { (result ≡ may_write bytes.old «record» n numbers.now) × (bytes.new ≡ bytes_written bytes.old «record» n numbers.now) }
{
    let Some(a) = layout::start_of(bytes.len(), record as usize) else {
        return false;
    };
    let Ok(numbers) = <&[u64; COUNT]>::try_from(numbers) else {
        return false;
    };
    let Some((next, fields)) = stated(numbers, n as usize) else {
        return false;
    };
    record_write::write_record(&mut bytes[a..a + SIZE], next, fields, rows_in(numbers));
    true
}

// Whether numbers are a message, and what its fields are.
ghost use Rattle.std.specs.Prelude.{◌≡◌, true, false, MatchOption, get_or};
ghost use Rattle.endian.specs.Zero.{all_zero};
ghost use Rattle.record_words.specs.Numbers.{fields_from, is_stated, numbers_fit, stated};

use crate::words::{COUNT, ROWS_FIRST};
use item::{Attempt, Incarnation, Index, Item, Tag};
use record::kinds::Fields;

// How many numbers half a byte can say: a record has sender and addressee in one byte.
const HALF_BYTE: u64 = 16;

// Whether each number fits its field.
// Kept: a list of limits by name. `try_from` would serve five of the seven, and the two half bytes would need a test of another form.
#[tactic(auto, unfolding(crate::specs::Numbers::numbers_fit))]
fn fit(numbers: &[u64; COUNT]) -> bool
    ensures { result ≡ numbers_fit numbers.now }
{
    numbers[0] <= u64::from(u16::MAX)
        && numbers[1] <= u64::from(u8::MAX)
        && numbers[2] < HALF_BYTE
        && numbers[3] < HALF_BYTE
        && numbers[4] <= u64::from(Incarnation::LARGEST)
        && numbers[5] <= u64::from(Incarnation::LARGEST)
        && numbers[6] <= u64::from(Attempt::LARGEST)
}

// The fields that numbers say, where they fit.
#[tactic(auto, using(crate::proofs::NumberLaws::fit_is), unfolding(crate::specs::Numbers::fields_from))]
fn fitting_fields(numbers: &[u64; COUNT]) -> Fields
    requires { numbers_fit numbers.now ≡ true }
    ensures { result ≡ fields_from numbers.now }
{
    Fields {
        kind: numbers[1] as u8,
        sender: numbers[2] as usize,
        addressee: numbers[3] as usize,
        incarnation: Incarnation(numbers[4] as u32),
        other: Incarnation(numbers[5] as u32),
        attempt: Attempt(numbers[6] as u32),
        item: Item {
            index: Index(numbers[7]),
            tag: Tag(numbers[8]),
        },
    }
}

// Whether every number is 0. All are joined, without a branch, so that the compiler takes them in blocks.
// Kept: beside `endian::zeros::is_zero`, for the reason that is given there.
#[tactic(auto, unfolding(endian::specs::Zero::all_zero))]
fn is_zero(numbers: &[u64]) -> bool
    ensures { result ≡ all_zero numbers.now }
{
    let mut joined = 0;
    for x in numbers {
        joined |= x;
    }
    joined == 0
}

// Next and the fields of the message that numbers are in a group of `n`, if they are one. Its rows are `rows_in` of
// `record_words::rows`.
#[tactic(auto, using(record_read::proofs::ReadableLaws::rows_of_kind_most, crate::proofs::NumberLaws::fit_is))]
pub fn stated(numbers: &[u64; COUNT], n: usize) -> Option<(u16, Fields)>
    ensures { MatchOption result (is_stated (stated n numbers.now) ≡ false) (λ m. (is_stated (stated n numbers.now) ≡ true) × (m.0 ≡ get_or numbers.now 0 0) × (m.1 ≡ fields_from numbers.now)) }
{
    if !fit(numbers) {
        return None;
    }
    let fields = fitting_fields(numbers);
    let from = ROWS_FIRST + 2 * record_read::rows_of_kind(fields.kind, n);
    if !is_zero(&numbers[from..]) {
        return None;
    }
    if !record_read::is_known(fields) {
        return None;
    }
    Some((numbers[0] as u16, fields))
}

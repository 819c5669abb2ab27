// Decimal numbers of at most 64 bits, read from a slice.
// Kept: reading by hand, since `parse` wants a `&str` and takes a sign, so that a test of the bytes would stay.
ghost use Rattle.std.specs.Prelude.{◌+◌, ◌<◌, ◌≡◌, [], ◌∷◌};
ghost use Rattle.script.specs.Number.{leading_zero, number_from, number_in};

// The number that the bytes write: digits only, at least one, no leading zero but that of `0`, at most 64 bits.
#[tactic(auto, unfolding(crate::specs::Number::number_in))]
pub fn number_in(s: &[u8]) -> Option<u64>
    ensures { result ≡ number_in s.now }
{
    if s.is_empty() {
        return None;
    }
    if leading_zero(s) {
        return None;
    }
    digits_in(s)
}

// Whether a zero stands before further bytes.
#[tactic(auto, unfolding(crate::specs::Number::leading_zero))]
fn leading_zero(s: &[u8]) -> bool
    ensures { result ≡ leading_zero s.now }
{
    1 < s.len() && s[0] == b'0'
}

// The number that the digits write, leading zeros or not.
fn digits_in(s: &[u8]) -> Option<u64>
    ensures { result ≡ number_from 0 s.now }
{
    let mut v = 0;
    for b in s {
        v = with_digit(v, *b)?;
    }
    Some(v)
}

// The number with one more digit after it.
#[tactic(auto, unfolding(crate::specs::Number::number_from, crate::specs::Number::all_digits, crate::specs::Number::value_from, crate::specs::Number::is_digit))]
fn with_digit(v: u64, b: u8) -> Option<u64>
    ensures { result ≡ number_from v (b ∷ []) }
{
    if !b.is_ascii_digit() {
        return None;
    }
    let tens = v.checked_mul(10)?;
    tens.checked_add((b - b'0') as u64)
}

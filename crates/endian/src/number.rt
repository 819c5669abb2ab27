// Little-endian numbers in a slice. A number that does not lie within the slice reads as 0 and is not written.
// Kept: a slice and a place, where the layout has the number; a part of the slice would have to be shown to begin within it.
ghost use Rattle.std.specs.Prelude.{◌≡◌, ℕ, ◌+◌, ◌%◌, ◌^◌, ◌≤◌, leb};
ghost use Rattle.std.proofs.Common.{rules};
ghost use Rattle.endian.specs.Number.{number_at, with_number};

// A number of at most eight bytes.
pub trait Number: Copy {
    ghost WIDTH: { ℕ };

    ghost number: { Self → ℕ };

    // How many bytes it has.
    const WIDTH: usize;

    // The number that the lowest of eight bytes say.
    fn low(v: u64) -> Self
        ensures { number result ≡ v % 256 ^ WIDTH };

    // The same number in eight bytes.
    // Kept: `wide` and not `Into<u64>`, since the trait says of it that the number stays the same.
    fn wide(self) -> u64
        ensures { result ≡ number self };

    ghost at_most_8: { WIDTH ≤ 8 };
}

impl Number for u16 {
    ghost WIDTH = { 2 };

    ghost number = { λ x. x };

    const WIDTH: usize = 2;

    fn low(v: u64) -> u16 {
        (v % 65536) as u16
    }

    fn wide(self) -> u64 {
        u64::from(self)
    }

    ghost at_most_8 = { Prim.search rules };
}

impl Number for u32 {
    ghost WIDTH = { 4 };

    ghost number = { λ x. x };

    const WIDTH: usize = 4;

    fn low(v: u64) -> u32 {
        (v % 4294967296) as u32
    }

    fn wide(self) -> u64 {
        u64::from(self)
    }

    ghost at_most_8 = { Prim.search rules };
}

impl Number for u64 {
    ghost WIDTH = { 8 };

    ghost number = { λ x. x };

    const WIDTH: usize = 8;

    fn low(v: u64) -> u64 {
        v
    }

    fn wide(self) -> u64 {
        self
    }

    ghost at_most_8 = { Prim.search rules };
}

// Whether `width` elements from `at` lie within a slice of `len` elements.
pub fn lies_within(len: usize, at: usize, width: usize) -> bool
    ensures { result ≡ leb (at + width) len }
{
    if len < width {
        return false;
    }
    at <= len - width
}

// The number in the bytes from `at`.
pub fn read<T: Number>(s: &[u8], at: usize) -> T
    ensures { T.number result ≡ number_at T.WIDTH s.now at }
{
    let width = T::WIDTH;
    if !lies_within(s.len(), at, width) {
        return T::low(0);
    }
    let mut bytes = [0; 8];
    bytes[..width].copy_from_slice(&s[at..at + width]);
    T::low(u64::from_le_bytes(bytes))
}

// The bytes from `at` become `v`.
pub fn write<T: Number>(s: &mut [u8], at: usize, v: T)
    ensures { s.new ≡ with_number T.WIDTH s.old at (T.number v) }
{
    let width = T::WIDTH;
    if !lies_within(s.len(), at, width) {
        return;
    }
    let bytes = v.wide().to_le_bytes();
    s[at..at + width].copy_from_slice(&bytes[..width]);
}

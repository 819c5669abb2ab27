// What a host in C or Rust calls: a small boundary of numbers and byte slices over the crates below. A slice is handed over
// as a pointer and a length.
// Kept: numbers for none and two functions of one shape, since the C interface has them.
#![tactic(auto)]

ghost use Rattle.std.specs.Prelude.{◌≡◌};
ghost use Rattle.record_words.specs.Records.{bytes_written, may_read, may_write, numbers_read};
ghost use Rattle.run_script.specs.Script.{ScriptRun};
ghost use Rattle.host_api.specs.Sound.{sound_for};

// Runs a drill's whole script from its beginning, over a store of its own, and prints its answers from the start of
// `out` on. Gives how many bytes were printed, or the largest number where `out` has no room for all: it stops at a line
// that has not 72 bytes left.
#[unsafe(no_mangle)]
pub extern "C" fn yagvost_run_script(script: &[u8], out: &mut [u8]) -> usize
    ensures { ScriptRun script.now out.new result }
{
    let printed = run_script::run(script, out);
    printed.unwrap_or(usize::MAX)
}

// Whether these bytes are a sound store of a group of `n`.
#[tactic(auto, unfolding(crate::specs::Sound::sound_for, crate::specs::Sound::of_size))]
#[unsafe(no_mangle)]
pub extern "C" fn yagvost_is_sound(store: &[u8], n: u64) -> bool
    ensures { result ≡ sound_for store.now n }
{
    store_check::check_store(store).is_some_and(|found| found.n as u64 == n)
}

// The numbers of record `record` of the bytes, read for a group of `n`: next, kind, sender, addressee, the sender's
// incarnation, the other incarnation, attempt, index, tag, and the index and tag of fifteen rows. Where there are not 39
// numbers, the record is not whole within the bytes, or it is no message, it gives false and no number has changed.
#[unsafe(no_mangle)]
pub extern "C" fn yagvost_read_record(
    bytes: &[u8],
    record: u64,
    n: u64,
    numbers: &mut [u64],
) -> bool
    ensures { (result ≡ may_read bytes.now «record» n numbers.old) × (numbers.new ≡ numbers_read bytes.now «record» n numbers.old) }
{
    record_words::read_record(bytes, record, n, numbers)
}

// Record `record` of the bytes becomes what the numbers say in a group of `n`, in the same order. Where the record is
// not whole within the bytes, there are not 39 numbers, one does not fit its field, or they are no message, it gives false
// and no byte has changed. A row that the message does not have must be 0.
#[unsafe(no_mangle)]
pub extern "C" fn yagvost_write_record(
    bytes: &mut [u8],
    record: u64,
    n: u64,
    numbers: &[u64],
) -> bool
    ensures { (result ≡ may_write bytes.old «record» n numbers.now) × (bytes.new ≡ bytes_written bytes.old «record» n numbers.now) }
{
    record_words::write_record(bytes, record, n, numbers)
}

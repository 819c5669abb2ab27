// The drill (document 01, Drill program): reads a script from standard input, and prints the answer of each line to
// standard output. `drill_state` and `drill_run` say what the lines mean and print; here are the blocks.
// Kept: `say` writes one constant text, and there is no value to print by `Display`. Piece, store and output are lent by
// different owners, as in `drill_run`.
#![tactic(auto)]

ghost use Rattle.std.specs.Prelude.{length};
ghost use Rattle.io.specs.Counts.{IsPrefixLen};
ghost use Rattle.drill_run.specs.Whole.{TakenWhole};

use drill_run::{STORE_ROOM, feed};
use drill_state::{Progress, finish};
use std::io::{Read, Result, Write};

// How often a read that fails is tried, since an interrupted one fails too.
const TRIES: u64 = 16;

// Says on standard error what failed; the exit status does not tell. Where that cannot be written either, nothing is said.
fn say(errors: &mut impl Write, what_failed: &str) {
    let _ = errors.write_all(what_failed.as_bytes());
}

// Takes a piece of the script from where the drill stands, and prints its answers, in as many turns as `out` has room for.
// It ends early only where no count is left for another line. After an output that cannot be written nothing more is
// written, and the piece is still taken.
fn take_piece(
    piece: &[u8],
    progress: &mut Progress,
    store: &mut [u8],
    out: &mut [u8],
    output: &mut impl Write,
) -> Result<()>
    ensures { TakenWhole piece.now progress.old store.old (length out.old) progress.new store.new }
{
    let mut written = Ok(());
    let mut from = 0;
    // Kept: a turn takes as much of the piece as had room, so that there is no item to go over.
    while from < piece.len() {
        let fed = feed(&piece[from..], *progress, store, out);
        let at = fed.at;
        let next = fed.next;
        *progress = fed.progress;
        if written.is_ok() {
            written = output.write_all(&out[..at]);
        }
        if next == 0 {
            break;
        }
        from += next;
    }
    written
}

// Reads a block of the script: no byte at its end, or where the input cannot be read, which is said.
fn read_block(input: &mut impl Read, errors: &mut impl Write, block: &mut [u8]) -> usize
    ensures { IsPrefixLen result block.new }
{
    for _ in 0..TRIES {
        if let Ok(got) = input.read(block) {
            return got;
        }
    }
    say(errors, "input failed\n");
    0
}

// Reads the script block by block to its end. A proved loop has to end, and nothing says that the input does, so the
// blocks are counted up to the largest number there is.
fn main(rt: HostRuntime) {
    let mut input = rt.stdin();
    let mut output = rt.stdout();
    let mut errors = rt.stderr();
    let mut room = [0u8; STORE_ROOM];
    let mut block = io::large_buffer();
    let mut out = io::large_buffer();
    let mut progress = Progress::start();
    for _ in 0..u64::MAX {
        let n = read_block(&mut input, &mut errors, &mut block);
        if n == 0 {
            break;
        }
        let taken = take_piece(
            &block[..n],
            &mut progress,
            &mut room[..store::LENGTH],
            &mut out,
            &mut output,
        );
        if taken.is_err() {
            say(&mut errors, "output failed\n");
            break;
        }
    }
    let at = finish(progress, &mut out);
    let _ = output.write_all(&out[..at]);
}

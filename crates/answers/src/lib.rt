// The drill's output lines, printed into a lent slice.
// Kept: no struct of slice and place at `print_line` and `has_room`: tried with its room as a ghost field, and the proof of
// its method for a text did not close.
// Kept: no `impl Display`: tried through a writer that never fails, and the goal after an `Err` of `writeln!` stays open,
// since the clauses of `fmt` speak of `Ok` alone.
#![tactic(auto)]

ghost use Rattle.std.specs.Prelude.{◌+◌, ◌≡◌, ◌++◌, leb, length};
ghost use Rattle.script.specs.Digits.{decimal_of};
ghost use Rattle.answers.specs.Place.{Begins, place_after, placed};
ghost use Rattle.answers.specs.Output.{answer_bytes, item_bytes, line_room, output_line, reply_bytes, tag_bytes};

use endian::lies_within;
use item::{Item, Tag};
use itoa::Buffer;
use protocol::Answer;

// The bytes of the longest output line.
pub const LINE_ROOM: usize = 72;

// Whether the longest line has room from the place on.
pub fn has_room(out: &[u8], at: usize) -> bool
    ensures { result ≡ leb (at + line_room) (length out.now) }
{
    lies_within(out.len(), at, LINE_ROOM)
}

// Writes the output line at the place: the count, and what the input line was answered, or that it was not read. Gives
// the place after it. Where fewer bytes are left than the longest line takes, nothing is written and the place comes back.
pub fn print_line(out: &mut [u8], at: usize, count: u64, reply: Option<Answer>) -> usize
    ensures { (result ≡ place_after line_room out.old at (output_line count reply)) × (out.new ≡ placed line_room out.old at (output_line count reply)) }
{
    if !has_room(out, at) {
        return at;
    }
    at + put_line(&mut out[at..], count, reply)
}

// Writes the output line at the start, where it fits, as the functions below write their part.
#[tactic(auto, unfolding(crate::specs::Output::output_line))]
fn put_line(out: &mut [u8], count: u64, reply: Option<Answer>) -> usize
    ensures { Begins out.old (output_line count reply) result out.new }
{
    let counted = put_number(out, count);
    let spaced = counted + put_text(&mut out[counted..], b" ");
    let replied = spaced + put_reply(&mut out[spaced..], reply);
    replied + put_text(&mut out[replied..], b"\n")
}

// Writes what the line says after its count.
#[tactic(auto, unfolding(crate::specs::Output::reply_bytes))]
fn put_reply(out: &mut [u8], reply: Option<Answer>) -> usize
    ensures { Begins out.old (reply_bytes reply) result out.new }
{
    match reply {
        Some(answer) => put_answer(out, answer),
        None => put_text(out, b"unread"),
    }
}

#[tactic(auto, unfolding(crate::specs::Output::answer_bytes, protocol::specs::Answer::refusal_number))]
fn put_answer(out: &mut [u8], answer: Answer) -> usize
    ensures { Begins out.old (answer_bytes answer) result out.new }
{
    match answer {
        Answer::Ok => put_text(out, b"ok"),
        Answer::Settled(item) => put_item(out, b"settled ", item),
        Answer::Accepted(item) => put_item(out, b"accepted ", item),
        Answer::Stopped(row) => put_value(out, b"stopped ", row as u64),
        Answer::Refused(why) => put_value(out, b"refused ", why as u64),
    }
}

// Writes a word and an item: its index, a space and its tag.
#[tactic(auto, unfolding(crate::specs::Output::item_bytes))]
fn put_item(out: &mut [u8], word: &[u8], item: Item) -> usize
    ensures { Begins out.old (word.now ++ item_bytes item) result out.new }
{
    let indexed = put_value(out, word, item.index.0);
    let spaced = indexed + put_text(&mut out[indexed..], b" ");
    spaced + put_tag(&mut out[spaced..], item.tag)
}

// Writes a word and a number.
fn put_value(out: &mut [u8], word: &[u8], v: u64) -> usize
    ensures { Begins out.old (word.now ++ decimal_of v) result out.new }
{
    let next = put_text(out, word);
    next + put_number(&mut out[next..], v)
}

#[tactic(auto, unfolding(crate::specs::Output::tag_bytes))]
fn put_tag(out: &mut [u8], tag: Tag) -> usize
    ensures { Begins out.old (tag_bytes tag) result out.new }
{
    put_number(out, tag.0)
}

// Writes some bytes; where they do not fit, nothing.
fn put_text(out: &mut [u8], text: &[u8]) -> usize
    ensures begins { Begins out.old text.now result out.new }
    ensures whole { (result ≡ place_after (length text.now) out.old 0 text.now) × (out.new ≡ placed (length text.now) out.old 0 text.now) }
{
    if out.len() < text.len() {
        return 0;
    }
    out[..text.len()].copy_from_slice(text);
    text.len()
}

// Writes a number in decimal; where its digits do not fit, nothing.
fn put_number(out: &mut [u8], v: u64) -> usize
    ensures begins { Begins out.old (decimal_of v) result out.new }
    ensures whole { (result ≡ place_after (length (decimal_of v)) out.old 0 (decimal_of v)) × (out.new ≡ placed (length (decimal_of v)) out.old 0 (decimal_of v)) }
{
    put_text(out, Buffer::new().format(v).as_bytes())
}

// Builds stores of a group of 3, damages each in one place, and prints which are sound, with the size of the group and
// how many records are free. What must come is worked out from document 01, "Message store".
// Kept: a byte is named by its record and its place in it, as the layout has it; an offset in the store is no plainer.
#![tactic(auto)]

use item::{Attempt, Incarnation, Index, Item, Tag};
use message::{Envelope, Message};
use std::io;
use std::io::Write;
use store::Survey;
use store_access::links;

// The group.
const NODES: usize = 3;

// Where the head has n, the byte that is zero, and the first byte after the group's inboxes.
const SIZE_AT: usize = 2;

const SPARE_AT: usize = 3;

const REST_AT: usize = 10;

// Where a record has sender and addressee, its attempt and its last byte.
const ADDRESS_AT: usize = 3;

const ATTEMPT_AT: usize = 12;

const LAST_AT: usize = 271;

fn put(s: &mut [u8], sender: usize, addressee: usize, message: Message) {
    let envelope = Envelope {
        sender,
        addressee,
        incarnation: Incarnation(1),
        message,
    };
    store_change::put(s, envelope, [Item::zero(); item::MAX_NODES]);
}

// Inbox 1 has records 1 and 3, inbox 2 has record 2, inbox 0 is empty, and records 4 to 239 are free.
fn fill(s: &mut [u8]) {
    let item = Item {
        index: Index(1),
        tag: Tag(65),
    };
    let attempt = Attempt(1);
    store_change::set_up(s, NODES);
    put(s, 0, 1, Message::Store { attempt, item });
    put(s, 0, 2, Message::Fetch);
    put(s, 2, 1, Message::Fetch);
}

// The line of one store.
fn print(out: &mut impl Write, s: &[u8], name: &str) -> io::Result<()> {
    out.write_all(name.as_bytes())?;
    let Some(Survey { n, free }) = store_check::check_store(s) else {
        return out.write_all(b": unsound\n");
    };
    writeln!(out, ": sound, n {n}, free {free}")
}

// Byte `at` of record `i` becomes `to`.
fn change(s: &mut [u8], i: usize, at: usize, to: u8) {
    if store::RECORDS <= i {
        return;
    }
    if record::SIZE <= at {
        return;
    }
    if let Some(byte) = s.get_mut(i * record::SIZE + at) {
        *byte = to;
    }
}

// Stores with messages, each with another `next` after a record.
fn print_linked(out: &mut impl Write, s: &mut [u8]) -> io::Result<()> {
    for (name, i, next) in [
        ("a loop in an inbox", 3, 1),
        ("a loop in the free chain", 239, 4),
        ("a record on two chains", 3, 2),
        ("a record on none", 4, 6),
        ("a next beyond the end", 239, 240),
    ] {
        fill(s);
        links::set_next(s, i, next);
        print(out, s, name)?;
    }
    Ok(())
}

// Stores with messages, each with one byte of a record changed.
fn print_changed(out: &mut impl Write, s: &mut [u8]) -> io::Result<()> {
    for (name, i, at, to) in [
        ("n 4", 0, SIZE_AT, 4),
        ("a stray byte beside n", 0, SPARE_AT, 1),
        ("a stray byte after the inboxes", 0, REST_AT, 1),
        ("a stray byte in a free record", 239, LAST_AT, 1),
        ("a stray byte in an unused field", 2, ATTEMPT_AT, 1),
        ("a stray byte in an unused row", 1, LAST_AT, 1),
        ("a wrong owner", 1, ADDRESS_AT, 0x02),
        ("a sender equal to the addressee", 1, ADDRESS_AT, 0x11),
        ("a sender not below n", 1, ADDRESS_AT, 0x31),
    ] {
        fill(s);
        change(s, i, at, to);
        print(out, s, name)?;
    }
    Ok(())
}

fn main(rt: HostRuntime) -> io::Result<()> {
    let mut out = rt.stdout();
    let mut bytes = [0u8; store::LENGTH];
    print(&mut out, &bytes, "zeros")?;
    store_change::set_up(&mut bytes, NODES);
    print(&mut out, &bytes, "set up")?;
    fill(&mut bytes);
    print(&mut out, &bytes, "with messages")?;
    print(&mut out, &bytes[0..store::LENGTH - 1], "one byte short")?;
    print_linked(&mut out, &mut bytes)?;
    print_changed(&mut out, &mut bytes)?;
    fill(&mut bytes);
    store_change::drop_message(&mut bytes, 1, 1);
    print(&mut out, &bytes, "one message dropped")
}

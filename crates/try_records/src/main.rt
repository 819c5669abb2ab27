// Writes one record of each kind and prints their bytes in hexadecimal, sixteen to a line. In a record every byte of every
// field differs, so that a field swapped, shifted or turned shows. What must come is worked out from document 01.
// Kept: a record is named by its number, as document 01 names it; no `impl Display`, since a slice is no type of this crate.
#![tactic(auto)]

use item::{Attempt, Incarnation, Index, Item, Tag};
use message::{Envelope, Message};
use std::io;
use std::io::Write;

// The group: of the fifteen rows handed in, a Table keeps five.
const NODES: usize = 5;

const NEXT: u16 = 0xa1a0;

const INCARNATION: u32 = 0xa7a6a5a4;

const OTHER: u32 = 0xabaaa9a8;

const ATTEMPT: u32 = 0xafaeadac;

const INDEX: u64 = 0xb7b6b5b4b3b2b1b0;

const TAG: u64 = 0xbfbebdbcbbbab9b8;

fn item(index: u64, tag: u64) -> Item {
    Item {
        index: Index(index),
        tag: Tag(tag),
    }
}

fn rows() -> [Item; item::MAX_NODES] {
    [
        item(0x1716151413121110, 0x1f1e1d1c1b1a1918),
        item(0x2726252423222120, 0x2f2e2d2c2b2a2928),
        item(0x3736353433323130, 0x3f3e3d3c3b3a3938),
        item(0x4746454443424140, 0x4f4e4d4c4b4a4948),
        item(0x5756555453525150, 0x5f5e5d5c5b5a5958),
        item(0x6766656463626160, 0x6f6e6d6c6b6a6968),
        item(0x7776757473727170, 0x7f7e7d7c7b7a7978),
        item(0x8786858483828180, 0x8f8e8d8c8b8a8988),
        item(0x9796959493929190, 0x9f9e9d9c9b9a9998),
        item(0xa7a6a5a4a3a2a1a0, 0xafaeadacabaaa9a8),
        item(0xb7b6b5b4b3b2b1b0, 0xbfbebdbcbbbab9b8),
        item(0xc7c6c5c4c3c2c1c0, 0xcfcecdcccbcac9c8),
        item(0xd7d6d5d4d3d2d1d0, 0xdfdedddcdbdad9d8),
        item(0xe7e6e5e4e3e2e1e0, 0xefeeedecebeae9e8),
        item(0xf7f6f5f4f3f2f1f0, 0xfffefdfcfbfaf9f8),
    ]
}

fn put(s: &mut [u8], i: usize, sender: usize, addressee: usize, message: Message) {
    let envelope = Envelope {
        sender,
        addressee,
        incarnation: Incarnation(INCARNATION),
        message,
    };
    record_write::write(s, i, NODES, NEXT, envelope, rows());
}

fn fill(s: &mut [u8]) {
    let other = Incarnation(OTHER);
    let attempt = Attempt(ATTEMPT);
    let item = item(INDEX, TAG);
    let messages = [
        Message::Store { attempt, item },
        Message::Stored {
            other,
            attempt,
            item,
        },
        Message::Confirm {
            other,
            attempt,
            item,
        },
        Message::Confirmed {
            other,
            attempt,
            item,
        },
        Message::Fetch,
        Message::Table { other },
    ];
    for (i, message) in messages.iter().enumerate() {
        put(s, i, 9 + i, 1 + i, *message);
    }
}

// The bytes, and the end of a line after each sixteenth.
fn print(out: &mut impl Write, s: &[u8]) -> io::Result<()> {
    for (i, b) in s.iter().enumerate() {
        write!(out, "{b:02x}")?;
        if i % 16 == 15 {
            out.write_all(b"\n")?;
        }
    }
    Ok(())
}

fn main(rt: HostRuntime) -> io::Result<()> {
    let mut records = [0u8; 1632];
    fill(&mut records);
    print(&mut rt.stdout(), &records)
}

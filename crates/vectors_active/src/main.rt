// Runs a script: fills sessions of small stores and sends them whole. What it must write was recorded from the Rust by
// tests/make/active_vectors.py, which also wrote the script. A line is a letter, a character, and what it takes:
// `n S C M` a new store of S places, `o:TEXT` opens the session with this target, `p I` place I; what follows is about that place:
// a change as vectors_fill has them;
// `w HANDLE EPOCH LAST` a sending, `v HANDLE EPOCH LAST LENGTH` one that lends so many bytes first and more after a 9,
// `x LAST FROM` a call with a state that no beginning gave; `W`, `V` and `X` the same on the branch line.
// The areas that are changed and their shape are not one struct, as in vectors_fill.
#![tactic(auto)]

use active::Line;
use frame_stamp::Protocol;
use std::io;
use store_areas::Shape;
use vectors_script::{Fields, rest, text};
use vectors_sendings::Stored;

// The store's shape and the place that commands are about.
#[derive(Clone, Copy)]
struct At {
    shape: Shape,
    place: usize,
}

// The line of a sending: the branch line by a capital letter.
fn line_of(line: &[u8]) -> Line {
    match line.first() {
        Some(b'W' | b'V' | b'X') => Line::Branch,
        _ => Line::HeadOffice,
    }
}

// A sending, in version 1: what is recorded is the Rust's.
fn sending(
    rt: &impl Print,
    line: &[u8],
    stored: Stored,
    place: usize,
    out: &mut [u8],
) -> io::Result<()> {
    let mut fields = Fields::of(rest(line));
    let on = line_of(line);
    if line.starts_with(b"x") || line.starts_with(b"X") {
        let last = fields.number();
        let from = fields.number();
        return vectors_sendings::odd(rt, on, Protocol::FIRST, stored, place, last, from, out);
    }
    let handle = fields.small();
    let epoch = fields.number();
    let last = fields.number();
    let short = if line.starts_with(b"v") || line.starts_with(b"V") {
        fields.number() as usize
    } else {
        out.len()
    };
    vectors_sendings::whole(
        rt,
        on,
        Protocol::FIRST,
        stored,
        place,
        handle,
        epoch,
        last,
        out,
        short,
    )
}

// One command: what it leaves as the store's shape and the place.
fn command(
    rt: &impl Print,
    line: &[u8],
    words: &mut [u64],
    bytes: &mut [u8],
    out: &mut [u8],
    at: At,
) -> io::Result<At> {
    let shape = at.shape;
    let mut fields = Fields::of(rest(line));
    match (line.first(), text(line)) {
        (Some(b'n'), _) => {
            let places = fields.small();
            let (cap, messages) = (fields.small(), fields.small());
            let shape = vectors_fill::make(words, bytes, places, cap, messages);
            Ok(At { shape, place: 0 })
        }
        (Some(b'o'), Some(text)) => {
            // Where it wasn't opened, a place that no store has: each call refuses it.
            let place = vectors_fill::open(words, bytes, shape, text).unwrap_or(usize::MAX);
            Ok(At { shape, place })
        }
        (Some(b'p'), _) => Ok(At {
            shape,
            place: fields.number() as usize,
        }),
        (Some(b'w' | b'v' | b'x' | b'W' | b'V' | b'X'), _) => {
            let stored = Stored {
                words,
                bytes,
                shape,
            };
            sending(rt, line, stored, at.place, out)?;
            Ok(at)
        }
        _ => {
            vectors_fill::change(words, bytes, shape, at.place, line, out);
            Ok(at)
        }
    }
}

// The script in areas for a store with the messages of two full batches, and for its longest frame.
fn run(
    rt: &impl Print,
    script: &[u8],
    words: &mut [u64; 162],
    bytes: &mut [u8; 2_100_224],
    out: &mut [u8; 1_100_000],
) -> io::Result<()> {
    let mut at = At {
        shape: vectors_fill::NO_SHAPE,
        place: 0,
    };
    for line in script.split_inclusive(|b| *b == b'\n') {
        at = command(rt, line, words, bytes, out, at)?;
    }
    Ok(())
}

fn main(rt: HostRuntime) -> io::Result<()> {
    let mut room = [0u8; 65_536];
    let script = vectors_script::read_script(&rt, &mut room)?;
    let mut words = [0u64; 162];
    let mut bytes = [0u8; 2_100_224];
    let mut out = [0u8; 1_100_000];
    run(&rt, script, &mut words, &mut bytes, &mut out)
}

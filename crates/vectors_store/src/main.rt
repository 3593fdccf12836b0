// Runs a script of recordings on small stores, and writes what is stored: lines of numbers, lengths and hashes, and public vectors of
// FNV-1a. Commands: `n C M` a new store, `r LENGTH COUNT` Records with messages, `g K` a Record without one that skips K numbers,
// `z` Reset, `p LAG` promotion, `l` a listing, `h N` last_outgoing, `f TEXT` the hash of a text. What it must write was made by
// tests/make/store_vectors.py, which has the rules in Python.
// The areas and their shape are not one struct, as in vectors_fill.
// Each program has its own areas; the loop over the lines is all that they share.
#![tactic(auto)]

use std::io;
use store_areas::{Shape, View};
use store_log::{FoundMessage, fnv};

// The shape before the first `n`: its areas are lent, but nothing is stored.
const NO_SESSION: Shape = Shape {
    places: 2,
    ..vectors_fill::NO_SHAPE
};

// A number in digits, of which the last nine count, and a byte above them by its low half: so the scripts have always been read.
fn number(digits: &[u8]) -> u32 {
    digits.iter().fold(0u32, |value, byte| {
        value % 100_000_000 * 10 + u32::from(byte % 16)
    })
}

// Records messages of len bytes under the next numbers.
fn record_many(words: &mut [u64], bytes: &mut [u8], shape: Shape, len: usize, count: u32) {
    let mut room = [0u8; 80];
    for _ in 0..count {
        vectors_fill::record_made(words, bytes, shape, 0, len, &mut room);
    }
}

// A message's number, length and hash.
fn print_message(rt: &impl Print, ring: &[u8], found: FoundMessage) -> io::Result<()> {
    let span = found.span;
    let end = span.start.saturating_add(span.first);
    let first = ring.get(span.start..end).unwrap_or(&[]);
    let rest = ring.get(..span.rest).unwrap_or(&[]);
    let hash = fnv::bytes(fnv::bytes(fnv::START, first), rest);
    let len = first.len().saturating_add(rest.len());
    print!(rt; " {}/{len}/{hash:016x}", found.number)
}

// The next number and each message's number, length and hash.
fn list(rt: &impl Print, words: &[u64], bytes: &[u8], shape: Shape) -> io::Result<()> {
    let next = c_store::store_next_outgoing(words, bytes, shape, 0);
    print!(rt; "{}:", next.value)?;
    if let Ok(view) = View::with_place(shape, words, bytes, 0) {
        let place = view.place(0);
        let log = place.log();
        for found in log.messages_at(log.position_from(1)) {
            print_message(rt, log.bytes, found)?;
        }
    }
    println!(rt; "")
}

// One command: what it leaves as the store's shape.
fn command(
    rt: &impl Print,
    line: &[u8],
    words: &mut [u64],
    bytes: &mut [u8],
    shape: Shape,
) -> io::Result<Shape> {
    let mut numbers = vectors_script::rest(line)
        .split(|byte| *byte < b'0')
        .map(number);
    let first = numbers.next().unwrap_or(0);
    let second = numbers.next().unwrap_or(0);
    match line.first() {
        Some(b'n') => {
            let made = vectors_fill::make(words, bytes, 2, first, second);
            vectors_fill::open(words, bytes, made, b"B");
            vectors_fill::open(words, bytes, made, b"C");
            return Ok(made);
        }
        Some(b'r') => record_many(words, bytes, shape, first as usize, second),
        Some(b'g') => {
            let next = c_store::store_next_outgoing(words, bytes, shape, 0).value;
            let seq = next.wrapping_add(u64::from(first));
            c_changes::store_record_none(words, bytes, shape, 0, seq);
        }
        Some(b'z') => {
            c_changes::store_reset(words, bytes, shape, 0);
        }
        Some(b'p') => {
            c_store::store_take_over(words, bytes, shape, 0, u64::from(first));
        }
        Some(b'l') => list(rt, words, bytes, shape)?,
        Some(b'h') => {
            let n = u64::from(first);
            let hash = c_store::store_last_outgoing(words, bytes, shape, 0, n);
            println!(rt; "{:016x}", hash.value)?;
        }
        _ => {
            if let Some(text) = vectors_script::text(line) {
                println!(rt; "{:016x}", fnv::bytes(fnv::START, text))?;
            }
        }
    }
    Ok(shape)
}

fn main(rt: HostRuntime) -> io::Result<()> {
    let mut room = [0u8; 65_536];
    let script = vectors_script::read_script(&rt, &mut room)?;
    let mut words = [0u64; 162];
    let mut bytes = [0u8; 576];
    let mut shape = NO_SESSION;
    for line in script.split_inclusive(|b| *b == b'\n') {
        shape = command(&rt, line, &mut words, &mut bytes, shape)?;
    }
    Ok(())
}

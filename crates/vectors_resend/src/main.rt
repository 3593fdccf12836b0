// Runs a script: fills a session and lists its messages by resend ranges. What it must write was made by tests/make/resend_vectors.py,
// which holds each message against every range, and which also wrote the script. A line is a letter, a character, and what it takes:
// `n C M` a new store with one session, `l LENGTH` a Record with a made message, `g N` one without message, `z` Reset,
// `G PLACE ENTRIES FIRST LAST ..` a request for the session at a place, into an area of so many entries, and so is any other line.
// The areas and their shape are not one struct, as in vectors_fill.
// Each program has its own areas; the loop over the lines is all that they share.
#![tactic(auto)]

use base_refusals::Refusal;
use std::io;
use store_areas::Shape;
use store_resend::{Listed, Tally};
use vectors_script::{Fields, rest};

// What each word of an area is before it is lent.
const LENT: u64 = 7;

// FNV-1a of a part of the byte area on from a hash, 0 where it lies outside.
fn hash_part(hash: u64, bytes: &[u8], at: u64, len: u64) -> u64 {
    let from = at as usize;
    let end = from.saturating_add(len as usize);
    match bytes.get(from..end) {
        Some(part) => c_store::store_fnv(hash, part),
        None => 0,
    }
}

// The entries of a list: number, set, length and the hash of the bytes that it names.
fn print_entries(rt: &impl Print, bytes: &[u8], entries: &[u64]) -> io::Result<()> {
    for entry in entries.chunks_exact(Listed::ENTRY_WORDS) {
        let [number, set, first_at, first_len, second_at, second_len] = *entry else {
            return Ok(());
        };
        let len = first_len.wrapping_add(second_len);
        let first = hash_part(store_log::fnv::START, bytes, first_at, first_len);
        let hash = hash_part(first, bytes, second_at, second_len);
        println!(rt; "{number} {set} {len} {hash}")?;
    }
    Ok(())
}

// The answer to a request, and whether what isn't the list's is as it was lent.
fn print_answer(
    rt: &impl Print,
    bytes: &[u8],
    entries: &[u64],
    listed: Result<Tally, Refusal>,
) -> io::Result<()> {
    let mut words = 0;
    match listed {
        Ok(Tally { length, bytes }) => {
            print!(rt; "count={length} bytes={bytes}")?;
            words = length.saturating_mul(Listed::ENTRY_WORDS);
        }
        Err(refusal) => print!(rt; "R {}", refusal.number())?,
    }
    let (list, rest) = entries.split_at(words.min(entries.len()));
    if rest.iter().all(|word| *word == LENT) {
        println!(rt; "")?;
    } else {
        println!(rt; " and more was written")?;
    }
    print_entries(rt, bytes, list)
}

// A request, into an area of at most 72 entries.
fn request(
    rt: &impl Print,
    mut fields: Fields<'_>,
    words: &[u64],
    bytes: &[u8],
    shape: Shape,
) -> io::Result<()> {
    let mut ranges = [0u64; 132];
    let mut entries = [LENT; 432];
    let place = fields.number() as usize;
    let room = fields.number() as usize;
    let ranges = fields.numbers(&mut ranges);
    let listed = store_resend::list(
        words,
        bytes,
        shape,
        place,
        ranges,
        &mut entries[..room % 73 * Listed::ENTRY_WORDS],
    );
    print_answer(rt, bytes, &entries, listed)
}

// One command: what it leaves as the store's shape.
fn command(
    rt: &impl Print,
    line: &[u8],
    words: &mut [u64],
    bytes: &mut [u8],
    shape: Shape,
) -> io::Result<Shape> {
    let mut fields = Fields::of(rest(line));
    match line.first() {
        Some(b'n') => {
            let made = vectors_fill::make(words, bytes, 1, fields.small(), fields.small());
            vectors_fill::open(words, bytes, made, b"B");
            return Ok(made);
        }
        Some(b'l' | b'g' | b'z') => {
            let mut room = [0u8; 1100];
            vectors_fill::change(words, bytes, shape, 0, line, &mut room);
        }
        _ => request(rt, fields, words, bytes, shape)?,
    }
    Ok(shape)
}

fn main(rt: HostRuntime) -> io::Result<()> {
    let mut room = [0u8; 65_536];
    let script = vectors_script::read_script(&rt, &mut room)?;
    let mut words = [0u64; 242];
    let mut bytes = [0u8; 1248];
    let mut shape = vectors_fill::NO_SHAPE;
    for line in script.split_inclusive(|b| *b == b'\n') {
        shape = command(&rt, line, &mut words, &mut bytes, shape)?;
    }
    Ok(())
}

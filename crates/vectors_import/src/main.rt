// Runs a script: imports files of messages into small stores. What it must write was made by tests/make/import_vectors.py, which reads the
// files once more, and which also wrote the script. A line is a letter, a character, and what it takes: `n S C M` a new store, `x` an empty
// file, `a TEXT` a text behind the file (`|` for byte 01, `~` for byte 80, `^` for a line feed), `s AT BYTE` one byte of it set,
// `i KEY LENGTH` an import of the file's first bytes.
// The areas and their shape are not one struct, as in vectors_fill.
#![tactic(auto)]

use c_import::Built;
use std::io;
use store_areas::Shape;
use vectors_script::{Fields, rest};

// How long a file may be.
const AREA: usize = 8192;

// A file of messages in a lent area: its first `len` bytes.
#[derive(Drop)]
struct File<'a> {
    area: &'a mut [u8],
    len: usize,
}

impl File<'_> {
    // Sets one byte of the area, if it has it.
    fn set(&mut self, at: usize, value: u8) {
        if let Some(byte) = self.area.get_mut(at) {
            *byte = value;
        }
    }

    // Puts a text behind the file, its bytes as the script writes them. Behind a full area it begins anew, and of a text that goes past the area's end
    // only what fits is written.
    fn append(&mut self, text: &[u8]) {
        let start = self.len % AREA;
        for part in text.chunks(AREA) {
            let room = self.area.get_mut(start..).unwrap_or(&mut []);
            for (byte, written) in room.iter_mut().zip(part) {
                *byte = match *written {
                    b'|' => 1,
                    b'~' => 128,
                    b'^' => 10,
                    other => other,
                };
            }
        }
        self.len = start + text.len() % AREA;
    }
}

// A sum over all that is lent, in which the order counts.
fn hash_areas(words: &[u64], bytes: &[u8]) -> u64 {
    let sum = words
        .iter()
        .fold(0u64, |h, w| h.wrapping_mul(3).wrapping_add(*w));
    c_store::store_fnv(sum, bytes)
}

// The answer of an import; of the new session next outgoing, its messages, and the hash over all of them.
fn print_answer(
    rt: &impl Print,
    words: &[u64],
    bytes: &[u8],
    shape: Shape,
    built: Built,
    kept: bool,
) -> io::Result<()> {
    if built.refusal != 0 {
        let written = if kept {
            ""
        } else {
            " and something was written"
        };
        return println!(rt; "R {} {}{written}", built.refusal, built.at);
    }
    let place = built.place;
    let out = c_store::store_next_outgoing(words, bytes, shape, place).value;
    let count = c_store::store_count(words, bytes, shape, place).value;
    let hash = c_store::store_last_outgoing(words, bytes, shape, place, u64::MAX).value;
    println!(rt; "place={place} out={out} count={count} hash={hash}")
}

// An import under one of three keys, or under one that is none.
fn import(
    rt: &impl Print,
    words: &mut [u64],
    bytes: &mut [u8],
    shape: Shape,
    key: u64,
    file: &[u8],
) -> io::Result<()> {
    let before = hash_areas(words, bytes);
    let sender = match key {
        0 => b"A",
        1 => b"B",
        2 => b"C",
        _ => b"\x07",
    };
    let built = c_import::wz_import(
        words,
        bytes,
        b"FIX.4.4",
        sender,
        b"V",
        b"",
        file,
        shape.places,
        shape.bytes,
        shape.messages,
    );
    let kept = before == hash_areas(words, bytes);
    print_answer(rt, words, bytes, shape, built, kept)
}

// One command: what it leaves as the store's shape.
fn command(
    rt: &impl Print,
    line: &[u8],
    words: &mut [u64],
    bytes: &mut [u8],
    file: &mut File<'_>,
    shape: Shape,
) -> io::Result<Shape> {
    let mut fields = Fields::of(rest(line));
    match line.first() {
        Some(b'n') => {
            let places = fields.small();
            let (cap, messages) = (fields.small(), fields.small());
            return Ok(vectors_fill::make(words, bytes, places, cap, messages));
        }
        Some(b'x') => file.len = 0,
        Some(b'a') => file.append(rest(line)),
        Some(b's') => {
            let at = fields.number() as usize;
            file.set(at, fields.byte());
        }
        _ => {
            let key = fields.number();
            if let Some(front) = file.area.get(..fields.number() as usize) {
                import(rt, words, bytes, shape, key, front)?;
            }
        }
    }
    Ok(shape)
}

fn main(rt: HostRuntime) -> io::Result<()> {
    let mut room = [0u8; 65_536];
    let script = vectors_script::read_script(&rt, &mut room)?;
    let mut words = [5u64; 220];
    let mut bytes = [9u8; 8192];
    let mut area = [0u8; AREA];
    let mut file = File {
        area: &mut area,
        len: 0,
    };
    let mut shape = vectors_fill::NO_SHAPE;
    for line in script.split_inclusive(|b| *b == b'\n') {
        shape = command(&rt, line, &mut words, &mut bytes, &mut file, shape)?;
    }
    Ok(())
}

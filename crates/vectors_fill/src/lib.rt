// What the programs share that make and fill small stores as the lines of a script say. A store's areas and shape are not one struct
// here: the borrow check doesn't cover a call that is lent one field to write and another to read.
#![tactic(auto)]

use store_areas::Shape;
use vectors_script::{Fields, rest, text};

// No store yet.
pub const NO_SHAPE: Shape = Shape {
    places: 0,
    bytes: 0,
    messages: 0,
};

// A new store without sessions: its shape, from how many places, message bytes and messages it has.
pub fn make(words: &mut [u64], bytes: &[u8], places: u32, cap: u32, messages: u32) -> Shape {
    let shape = Shape {
        places,
        bytes: cap,
        messages,
    };
    c_store::store_make(words, bytes, shape);
    shape
}

// The place of the session with this target, opened where it isn't stored yet.
pub fn open(words: &mut [u64], bytes: &mut [u8], shape: Shape, target: &[u8]) -> Option<usize> {
    let opened = c_store::store_open(words, bytes, shape, b"FIX.4.4", b"A", target, b"");
    if opened.refusal == 0 {
        Some(opened.value as usize)
    } else {
        None
    }
}

// A Record of the next outgoing number, whose message of len bytes counts on from it, modulo 251; it is made in the room.
pub fn record_made(
    words: &mut [u64],
    bytes: &mut [u8],
    shape: Shape,
    place: usize,
    len: usize,
    room: &mut [u8],
) {
    let next = c_store::store_next_outgoing(words, bytes, shape, place).value;
    let Some(text) = room.get_mut(..len) else {
        return;
    };
    for (i, byte) in text.iter_mut().enumerate() {
        *byte = (next.wrapping_add(i as u64) % 251) as u8;
    }
    c_changes::store_record(words, bytes, shape, place, text);
}

// The change of numbers that a line asks for; one that can't be made is left out.
fn change_numbers(words: &mut [u64], bytes: &[u8], shape: Shape, place: usize, line: &[u8]) {
    let mut fields = Fields::of(rest(line));
    let n = fields.number();
    match line.first() {
        Some(b'i') => c_changes::store_set_next_incoming(words, bytes, shape, place, n),
        Some(b'b') => {
            let flight = fields.number();
            c_changes::store_set_next_incoming_in_flight(words, bytes, shape, place, n, flight)
        }
        Some(b'f') => c_changes::store_set_in_flight(words, bytes, shape, place, n),
        Some(b'g') => c_changes::store_record_none(words, bytes, shape, place, n),
        Some(b'z') => c_changes::store_reset(words, bytes, shape, place),
        _ => 0,
    };
}

// The change that a line asks for: `i N` SetNextIncoming, `b N F` SetNextIncomingInFlight, `f N` SetInFlight, `g N` a Record without
// message, `z` Reset, `t:TEXT` the stamp, `k:TEXT` the marks, `m:TEXT` a Record with this message, `l LENGTH` one with a made message.
// One that can't be made is left out, and so is a text of a line that ends with its letter.
pub fn change(
    words: &mut [u64],
    bytes: &mut [u8],
    shape: Shape,
    place: usize,
    line: &[u8],
    room: &mut [u8],
) {
    match (line.first(), text(line)) {
        (Some(b't'), Some(text)) => {
            c_changes::store_set_created_at(words, bytes, shape, place, text);
        }
        (Some(b'k'), Some(text)) => {
            c_changes::store_set_marks(words, bytes, shape, place, text);
        }
        (Some(b'm'), Some(text)) => {
            c_changes::store_record(words, bytes, shape, place, text);
        }
        (Some(b'l'), _) => {
            let len = vectors_script::digits(rest(line)) as usize;
            record_made(words, bytes, shape, place, len, room);
        }
        _ => change_numbers(words, bytes, shape, place, line),
    }
}

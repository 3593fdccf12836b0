// What a store holds, for programs in C or Rust: the place of a key, one stored message, and the lowest number still stored. Nothing is asked of a caller.
// C hands the four texts of a key and the three numbers of a shape apart.
#![tactic(auto)]

ghost use Rattle.std.specs.Prelude.{◌≡◌, ◌+◌, ◌≤◌, ◌<◌, ◌++◌, length};
ghost use Rattle.base_laws.specs.Wrote.{Wrote};
ghost use Rattle.frame_reader.specs.Answers.{span_of};
ghost use Rattle.store_areas.specs.Areas.{place_at, used_of};
ghost use Rattle.store_place.specs.Place.{key_from};
ghost use Rattle.store_sessions.specs.Answers.{sought_in};
ghost use Rattle.c_stored.specs.Stored.{place_code, FoundIs, TellsText, TellsMessage, lowest_answer};
ghost use Rattle.store_lowest.specs.Lowest.{lowest_in};

use base_refusals::Refusal;
use c_code::{done, refusal};
use c_store::StoreAnswer;
use frame_reader::Span;
use store_areas::{Shape, View};
use store_place::Key;
use store_sessions::Message;

// Nothing is stored under this key, or under this number.
const NOT_STORED: u64 = 0;

// ---- the place of a key

// The place of the session with a key.
#[unsafe(no_mangle)]
pub extern "C" fn wz_find(
    words: &[u64],
    bytes: &[u8],
    begin: &[u8],
    sender: &[u8],
    target: &[u8],
    suffix: &[u8],
    sessions: u32,
    c: u32,
    m: u32,
) -> u64
    ensures { result ≡ place_code (sought_in (record { places = sessions; bytes = c; messages = m }) words.now bytes.now (key_from begin.now sender.now target.now suffix.now)) }
{
    let shape = Shape {
        places: sessions,
        bytes: c,
        messages: m,
    };
    let key = Key {
        begin,
        sender,
        target,
        suffix,
    };
    match store_sessions::find(words, bytes, shape, &key) {
        Ok(Some(place)) => done(place),
        Ok(None) => NOT_STORED,
        Err(e) => refusal(e.number(), 0),
    }
}

// ---- one message

// The stored message with a number. Stored numbers are from 1 on.
fn find_message(view: &View, place: usize, number: u64) -> Option<Message>
    requires { place < used_of view.now.words.now }
    ensures { FoundIs number (place_at view.now.shape view.now.words.now view.now.bytes.now place).stored.session.messages view.now.bytes.now result }
{
    let from = store_sessions::messages_from(view, place, number.max(1));
    if from.left == 0 {
        return None;
    }
    let message = store_sessions::message_at(view, place, from);
    (message.number == number).then_some(message)
}

// Writes the two parts of a message at the start of an area, if there is room.
fn put_parts(bytes: &[u8], first: Span, second: Span, out: &mut [u8]) -> u64
    ensures { TellsText (span_of bytes.now first ++ span_of bytes.now second) out.old out.new result }
{
    let head = frame_reader::slice(bytes, first);
    let tail = frame_reader::slice(bytes, second);
    if out.len() < head.len() + tail.len() {
        return refusal(Refusal::NoRoom.number(), 0);
    }
    let between = base_bytes::copy(head, out, 0);
    let end = base_bytes::copy(tail, out, between);
    done(end)
}

// The message with a number of the session at a place, which stands in one part of the byte area, or in two.
#[unsafe(no_mangle)]
pub extern "C" fn wz_message(
    words: &[u64],
    bytes: &[u8],
    out: &mut [u8],
    sessions: u32,
    c: u32,
    m: u32,
    place: usize,
    number: u64,
) -> u64
    ensures { TellsMessage (record { places = sessions; bytes = c; messages = m }) words.now bytes.now place number out.old out.new result }
{
    let shape = Shape {
        places: sessions,
        bytes: c,
        messages: m,
    };
    let view = match View::with_place(shape, words, bytes, place) {
        Ok(view) => view,
        Err(e) => return refusal(e.number(), 0),
    };
    match find_message(&view, place, number) {
        Some(message) => put_parts(bytes, message.first, message.second, out),
        None => NOT_STORED,
    }
}

// ---- the lowest number

// The lowest number still stored of the session at a place, 0 if none is.
#[unsafe(no_mangle)]
pub extern "C" fn wz_lowest(
    words: &[u64],
    bytes: &[u8],
    sessions: u32,
    c: u32,
    m: u32,
    place: usize,
) -> StoreAnswer
    ensures { result ≡ lowest_answer (lowest_in (record { places = sessions; bytes = c; messages = m }) words.now bytes.now place) }
{
    let shape = Shape {
        places: sessions,
        bytes: c,
        messages: m,
    };
    StoreAnswer::from(store_lowest::lowest(words, bytes, shape, place))
}

// One place of the store: the words and bytes of one session, and its key.
#![tactic(auto)]

pub mod place;

ghost use Rattle.std.specs.Prelude.{◌≡◌, Bool, true, List, [], ◌∷◌, ℕ, ◌+◌, ◌-◌, ◌*◌, ◌≤◌, ◌<◌, min, length, take, drop, get_or, set};
ghost use Rattle.model_text.specs.Printable.{is_marks};
ghost use Rattle.model_text.specs.Stamp.{is_stamp};
ghost use Rattle.model_frame.specs.Frame.{Key, Change, set_incoming, set_incoming_in_flight, set_in_flight, record_msg, record_bare, reset, set_created_at, set_marks};
ghost use Rattle.model_standby.specs.Store.{Place, on_stored, changed, taken_over, new_place, same_bytes, same_key, with_b};
ghost use Rattle.store_place.specs.Only.{Only};
ghost use Rattle.store_place.specs.Keys.{lent_key};
ghost use Rattle.store_place.specs.Place.{next_out_of, stored_flight, durable_of, field, stamp_of, marks_of, stored_key, place_in, flight_is, PutText, ends_in_b};
ghost use Rattle.store_place.specs.PlaceByte;
ghost use Rattle.store_place.specs.PlaceWord;

// The words of a place; 11 to 13 are spare.
pub mod word {
    pub const NEXT_OUTGOING: usize = 0;

    pub const NEXT_INCOMING: usize = 1;
    // Whether a number is in flight, and that number.
    pub const HAS_IN_FLIGHT: usize = 2;

    pub const IN_FLIGHT: usize = 3;

    pub const DURABLE: usize = 4;
    // The lengths of the texts.
    pub const STAMP_LEN: usize = 5;

    pub const MARKS_LEN: usize = 6;

    pub const BEGIN_LEN: usize = 7;

    pub const SENDER_LEN: usize = 8;

    pub const TARGET_LEN: usize = 9;

    pub const SUFFIX_LEN: usize = 10;
    // The log's, from here on.
    pub const LOG: usize = 14;
    // Where the log's entries begin.
    pub const ENTRIES: usize = 16;
}

// The bytes of a place.
pub mod byte {
    // The key's texts.
    pub const BEGIN: usize = 0;

    pub const SENDER: usize = 32;

    pub const TARGET: usize = 64;

    pub const SUFFIX: usize = 96;

    pub const STAMP: usize = 128;

    pub const MARKS: usize = 160;
    // The ring of messages, from here on.
    pub const RING: usize = 224;
    // The bytes that each of the key's texts has, the stamp, and the marks.
    pub const KEY_TEXT_SIZE: usize = 32;

    pub const STAMP_SIZE: usize = 32;

    pub const MARKS_SIZE: usize = 64;
}

// Where a text stands: its first byte, how many bytes it may have, and the word that has its length.
#[derive(Clone, Copy)]
struct TextField {
    at: usize,
    size: usize,
    length: usize,
}

const BEGIN: TextField = TextField {
    at: byte::BEGIN,
    size: byte::KEY_TEXT_SIZE,
    length: word::BEGIN_LEN,
};

const SENDER: TextField = TextField {
    at: byte::SENDER,
    size: byte::KEY_TEXT_SIZE,
    length: word::SENDER_LEN,
};

const TARGET: TextField = TextField {
    at: byte::TARGET,
    size: byte::KEY_TEXT_SIZE,
    length: word::TARGET_LEN,
};

const SUFFIX: TextField = TextField {
    at: byte::SUFFIX,
    size: byte::KEY_TEXT_SIZE,
    length: word::SUFFIX_LEN,
};

const STAMP: TextField = TextField {
    at: byte::STAMP,
    size: byte::STAMP_SIZE,
    length: word::STAMP_LEN,
};

const MARKS: TextField = TextField {
    at: byte::MARKS,
    size: byte::MARKS_SIZE,
    length: word::MARKS_LEN,
};

// The last byte of the marks.
const LAST_MARK: usize = byte::RING - 1;

// ---- reading: most ask for the words alone, so they take the slices and no Place

pub fn next_outgoing(words: &[u64]) -> u64
    requires { PlaceWord.entries ≤ length words.now }
    ensures { result ≡ next_out_of words.now }
{
    words[word::NEXT_OUTGOING].max(1)
}

pub fn next_incoming(words: &[u64]) -> u64
    requires { PlaceWord.entries ≤ length words.now }
    ensures { result ≡ get_or words.now 1 0 }
{
    words[word::NEXT_INCOMING]
}

pub fn in_flight(words: &[u64]) -> Option<u64>
    requires { PlaceWord.entries ≤ length words.now }
    ensures { flight_is result ≡ stored_flight words.now }
{
    if words[word::HAS_IN_FLIGHT] == 0 {
        None
    } else {
        Some(words[word::IN_FLIGHT])
    }
}

pub fn durable(words: &[u64]) -> bool
    requires { PlaceWord.entries ≤ length words.now }
    ensures { result ≡ durable_of words.now }
{
    words[word::DURABLE] != 0
}

// The text in a field; a length beyond the field is cut.
fn text_in<'a>(words: &[u64], bytes: &'a [u8], text_field: TextField) -> &'a [u8]
    requires length_in_bounds { text_field.length < length words.now }
    requires size_in_bounds { text_field.at + text_field.size ≤ length bytes.now }
    ensures { result.now ≡ field bytes.now text_field.at text_field.size (get_or words.now text_field.length 0) }
{
    let end = text_field.at + words[text_field.length].min(text_field.size as u64) as usize;
    &bytes[text_field.at..end]
}

// The stamp; empty for none. It and the marks differ in the field, the test and what is promised: one function under both would leave them as long.
pub fn stamp<'a>(words: &[u64], bytes: &'a [u8]) -> &'a [u8]
    requires in_bounds { PlaceWord.entries ≤ length words.now }
    requires in_bounds_2 { PlaceByte.ring ≤ length bytes.now }
    ensures is { result.now ≡ stamp_of words.now bytes.now }
    ensures stands { take (length result.now) (drop PlaceByte.stamp bytes.now) ≡ result.now }
    ensures within { length result.now ≤ 32 }
{
    let stamp = text_in(words, bytes, STAMP);
    if frame_stamp::is_stamp(stamp) {
        stamp
    } else {
        &[]
    }
}

// The marks; empty for none.
pub fn marks<'a>(words: &[u64], bytes: &'a [u8]) -> &'a [u8]
    requires in_bounds { PlaceWord.entries ≤ length words.now }
    requires in_bounds_2 { PlaceByte.ring ≤ length bytes.now }
    ensures is { result.now ≡ marks_of words.now bytes.now }
    ensures stands { take (length result.now) (drop PlaceByte.marks bytes.now) ≡ result.now }
    ensures within { length result.now ≤ 64 }
{
    let marks = text_in(words, bytes, MARKS);
    if frame_stamp::is_marks(marks) {
        marks
    } else {
        &[]
    }
}

// The four texts of a session's key.
#[derive(Clone, Copy, PartialEq, Eq)]
pub struct Key<'a> {
    pub begin: &'a [u8],
    pub sender: &'a [u8],
    pub target: &'a [u8],
    pub suffix: &'a [u8],
}

// The key.
fn key_in<'a>(words: &[u64], bytes: &'a [u8]) -> Key<'a>
    requires in_bounds { PlaceWord.entries ≤ length words.now }
    requires in_bounds_2 { PlaceByte.ring ≤ length bytes.now }
    ensures { lent_key result ≡ stored_key words.now bytes.now }
{
    Key {
        begin: text_in(words, bytes, BEGIN),
        sender: text_in(words, bytes, SENDER),
        target: text_in(words, bytes, TARGET),
        suffix: text_in(words, bytes, SUFFIX),
    }
}

// Whether the place has this key.
pub fn has_key(words: &[u64], bytes: &[u8], sought: &Key) -> bool
    requires in_bounds { PlaceWord.entries ≤ length words.now }
    requires in_bounds_2 { PlaceByte.ring ≤ length bytes.now }
    ensures { result ≡ same_key (lent_key sought.now) (stored_key words.now bytes.now) }
{
    *sought == key_in(words, bytes)
}

// ---- changes: each unmarks the session. They take the slices, which a caller lends for one call: a struct of words, bytes and room would be made
// there of the same three, and could not be where C lends the bytes only to be read, as it does for the changes of the words alone.

pub fn set_next_incoming(words: &mut [u64], seq: u64)
    requires { PlaceWord.entries ≤ length words.old }
    ensures { (C M : ℕ) (b : List ℕ) → place_in C M words.new b ≡ on_stored (changed C M (set_incoming seq ∷ [])) (place_in C M words.old b) }
{
    words[word::NEXT_INCOMING] = seq;
    words[word::HAS_IN_FLIGHT] = 0;
    words[word::DURABLE] = 0;
}

pub fn set_next_incoming_in_flight(words: &mut [u64], seq: u64, in_flight: u64)
    requires { PlaceWord.entries ≤ length words.old }
    ensures { (C M : ℕ) (b : List ℕ) → place_in C M words.new b ≡ on_stored (changed C M (set_incoming_in_flight seq in_flight ∷ [])) (place_in C M words.old b) }
{
    words[word::NEXT_INCOMING] = seq;
    words[word::HAS_IN_FLIGHT] = 1;
    words[word::IN_FLIGHT] = in_flight;
    words[word::DURABLE] = 0;
}

pub fn set_in_flight(words: &mut [u64], seq: u64)
    requires { PlaceWord.entries ≤ length words.old }
    ensures { (C M : ℕ) (b : List ℕ) → place_in C M words.new b ≡ on_stored (changed C M (set_in_flight seq ∷ [])) (place_in C M words.old b) }
{
    words[word::HAS_IN_FLIGHT] = 1;
    words[word::IN_FLIGHT] = seq;
    words[word::DURABLE] = 0;
}

// A Record with its message, whose number is the next outgoing one. There must be a number after it.
pub fn record(words: &mut [u64], bytes: &mut [u8], max: usize, seq: u64, text: &[u8])
    requires max_in_bounds { PlaceWord.entries + 2 * max ≤ length words.old }
    requires in_bounds { PlaceByte.ring ≤ length bytes.old }
    requires seq_value { seq ≡ next_out_of words.old }
    requires seq_bound { seq < 18446744073709551615 }
    ensures { (C : ℕ) → length bytes.old ≡ PlaceByte.ring + C → place_in C max words.new bytes.new ≡ on_stored (changed C max (record_msg seq text.now ∷ [])) (place_in C max words.old bytes.old) }
{
    store_log::record(
        &mut words[word::LOG..],
        &mut bytes[byte::RING..],
        max,
        seq,
        text,
    );
    words[word::NEXT_OUTGOING] = seq + 1;
    words[word::DURABLE] = 0;
}

// A Record without message, of a number from the next outgoing one on.
pub fn record_none(words: &mut [u64], max: usize, seq: u64)
    requires max_in_bounds { PlaceWord.entries + 2 * max ≤ length words.old }
    requires words_bound { next_out_of words.old ≤ seq }
    requires seq_bound { seq < 18446744073709551615 }
    ensures { (C : ℕ) (b : List ℕ) → place_in C max words.new b ≡ on_stored (changed C max (record_bare seq ∷ [])) (place_in C max words.old b) }
{
    let next = next_outgoing(words);
    store_log::discard_stale(&mut words[word::LOG..], max, next);
    words[word::NEXT_OUTGOING] = seq + 1;
    words[word::DURABLE] = 0;
}

pub fn reset(words: &mut [u64], max: usize)
    requires { PlaceWord.entries + 2 * max ≤ length words.old }
    ensures { (C : ℕ) (b : List ℕ) → place_in C max words.new b ≡ on_stored (changed C max (reset ∷ [])) (place_in C max words.old b) }
{
    store_log::clear(&mut words[word::LOG..], max);
    words[word::NEXT_OUTGOING] = 1;
    words[word::NEXT_INCOMING] = 1;
    words[word::HAS_IN_FLIGHT] = 0;
    words[word::DURABLE] = 0;
    words[word::STAMP_LEN] = 0;
    words[word::MARKS_LEN] = 0;
}

// Puts a text into a field, with its length.
fn put_text(words: &mut [u64], bytes: &mut [u8], text_field: TextField, text: &[u8])
    requires length_in_bounds { text_field.length < length words.old }
    requires size_in_bounds { text_field.at + text_field.size ≤ length bytes.old }
    requires text_len_bound { length text.now ≤ text_field.size }
    ensures text { PutText text_field.at text_field.size text.now bytes.old bytes.new }
    ensures length { words.new ≡ set words.old text_field.length (length text.now) }
{
    base_bytes::copy(text, bytes, text_field.at);
    words[text_field.length] = text.len() as u64;
}

pub fn set_created_at(words: &mut [u64], bytes: &mut [u8], text: &[u8])
    requires in_bounds { PlaceWord.entries ≤ length words.old }
    requires in_bounds_2 { PlaceByte.ring ≤ length bytes.old }
    requires text_value { is_stamp text.now ≡ true }
    ensures { (C M : ℕ) → place_in C M words.new bytes.new ≡ on_stored (changed C M (set_created_at text.now ∷ [])) (place_in C M words.old bytes.old) }
{
    put_text(words, bytes, STAMP, text);
    words[word::DURABLE] = 0;
}

pub fn set_marks(words: &mut [u64], bytes: &mut [u8], text: &[u8])
    requires in_bounds { PlaceWord.entries ≤ length words.old }
    requires in_bounds_2 { PlaceByte.ring ≤ length bytes.old }
    requires text_value { is_marks text.now ≡ true }
    ensures { (C M : ℕ) → place_in C M words.new bytes.new ≡ on_stored (changed C M (set_marks text.now ∷ [])) (place_in C M words.old bytes.old) }
{
    put_text(words, bytes, MARKS, text);
    words[word::DURABLE] = 0;
}

// ---- promotion

// Whether marks have a final B.
fn ends_in_b(marks: &[u8]) -> bool
    ensures { result ≡ ends_in_b marks.now }
{
    marks.ends_with(b"B")
}

// Gives the n bytes of marks at 160 a final B, and answers how many there are then.
// By the area and a number: a slice of the marks alone could not grow.
fn put_b(bytes: &mut [u8], n: usize) -> usize
    requires in_bounds { PlaceByte.ring ≤ length bytes.old }
    requires n_bound { n ≤ 64 }
    ensures within { result ≤ 64 }
    ensures only { Only PlaceByte.marks PlaceByte.ring bytes.old bytes.new }
    ensures is { take result (drop PlaceByte.marks bytes.new) ≡ with_b (take n (drop PlaceByte.marks bytes.old)) }
{
    let end = byte::MARKS + n;
    if ends_in_b(&bytes[byte::MARKS..end]) {
        return n;
    }
    if byte::MARKS_SIZE <= n {
        bytes[LAST_MARK] = b'B';
        return n;
    }
    bytes[end] = b'B';
    n + 1
}

// Promotion: numbers are skipped for the lag, the marks get a final B, the session is marked.
pub fn take_over(words: &mut [u64], bytes: &mut [u8], max: usize, lag: u64)
    requires max_in_bounds { PlaceWord.entries + 2 * max ≤ length words.old }
    requires in_bounds { PlaceByte.ring ≤ length bytes.old }
    ensures { (C : ℕ) → place_in C max words.new bytes.new ≡ on_stored (taken_over lag) (place_in C max words.old bytes.old) }
{
    let next = next_outgoing(words);
    let n = marks(words, bytes).len();
    let end = put_b(bytes, n);
    store_log::discard_stale(&mut words[word::LOG..], max, next);
    words[word::NEXT_OUTGOING] = next.saturating_add(lag);
    words[word::MARKS_LEN] = end as u64;
    words[word::DURABLE] = 1;
}

// ---- new sessions

// The new session of a key.
pub fn new_session(words: &mut [u64], bytes: &mut [u8], max: usize, key: &Key)
    requires max_in_bounds { PlaceWord.entries + 2 * max ≤ length words.old }
    requires in_bounds { PlaceByte.ring ≤ length bytes.old }
    requires begin_len_bound { length key.now.begin.now ≤ 32 }
    requires sender_len_bound { length key.now.sender.now ≤ 32 }
    requires target_len_bound { length key.now.target.now ≤ 32 }
    requires suffix_len_bound { length key.now.suffix.now ≤ 32 }
    ensures { (C : ℕ) → place_in C max words.new bytes.new ≡ new_place (lent_key key.now) }
{
    put_text(words, bytes, BEGIN, key.begin);
    put_text(words, bytes, SENDER, key.sender);
    put_text(words, bytes, TARGET, key.target);
    put_text(words, bytes, SUFFIX, key.suffix);
    reset(words, max);
}

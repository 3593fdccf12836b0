// The store's operations for programs in C or Rust: each turns areas that break the rules, and a place that holds no session, down before all
// else (25), and asks nothing of its caller. C lends the areas apart, and hands the shape, the place and the four texts of a key beside them.
// `c_store_c` exports these as they stand, so their types are C's.
#![tactic(auto)]

ghost use Rattle.std.specs.Prelude.{◌≡◌, length};
ghost use Rattle.model_session.specs.Session.{Session};
ghost use Rattle.model_session.specs.Summary.{fnv, numbered_from, last_out};
ghost use Rattle.model_standby.specs.Store.{mark_durable, taken_over};
ghost use Rattle.base_refusals.specs.Numbers.{number_of};
ghost use Rattle.store_place.specs.Place.{key_from};
ghost use Rattle.c_store.specs.Total.{with_value, refused, answered, Reads, MadeIs, ChangeIs, OpenIs};

use base_refusals::Refusal;
use store_areas::{Shape, Store, View, word};
use store_place::Key;

// A refusal by its number, or 0 and the value: C is given both as plain numbers, so it is no Result.
#[repr(C)]
#[derive(Clone, Copy)]
pub struct StoreAnswer {
    pub refusal: u8,
    pub value: u64,
}

impl StoreAnswer {
    fn given(value: u64) -> StoreAnswer
        ensures { result ≡ with_value value }
    {
        StoreAnswer { refusal: 0, value }
    }

    fn refused(refusal: Refusal) -> StoreAnswer
        ensures { result ≡ refused (number_of refusal) }
    {
        StoreAnswer {
            refusal: refusal.number(),
            value: 0,
        }
    }
}

impl From<Result<u64, Refusal>> for StoreAnswer {
    fn from(answer: Result<u64, Refusal>) -> StoreAnswer
        ensures { result ≡ answered answer }
    {
        match answer {
            Ok(value) => StoreAnswer::given(value),
            Err(refusal) => StoreAnswer::refused(refusal),
        }
    }
}

// Makes a store without sessions.
pub fn store_make(words: &mut [u64], bytes: &[u8], shape: Shape) -> u8
    ensures { MadeIs shape words.old words.new bytes.now result }
{
    c_code::number(store_areas::make(shape, words, bytes))
}

// Opens the session of a key if it has none, and answers its place: 5 for what is no key, 20 where every place is taken.
pub fn store_open(
    words: &mut [u64],
    bytes: &mut [u8],
    shape: Shape,
    begin: &[u8],
    sender: &[u8],
    target: &[u8],
    suffix: &[u8],
) -> StoreAnswer
    ensures { OpenIs shape (key_from begin.now sender.now target.now suffix.now) words.old words.new bytes.old bytes.new result }
{
    let view = match View::over(shape, words, bytes) {
        Ok(view) => view,
        Err(refusal) => return StoreAnswer::refused(refusal),
    };
    if !frame_stamp::is_key(begin, sender, target, suffix) {
        return StoreAnswer::refused(Refusal::BadSession);
    }
    let key = Key {
        begin,
        sender,
        target,
        suffix,
    };
    if let Some(place) = store_sessions::place_of(&view, &key) {
        return StoreAnswer::given(place as u64);
    }
    if shape.places as u64 <= view.words[word::USED] {
        return StoreAnswer::refused(Refusal::NoSessionPlace);
    }
    let mut store = Store {
        words,
        bytes,
        shape,
    };
    let place = store_sessions::open(&mut store, &key);
    StoreAnswer::given(place as u64)
}

// ---- reading

pub fn store_next_outgoing(words: &[u64], bytes: &[u8], shape: Shape, place: usize) -> StoreAnswer
    ensures { Reads shape words.now bytes.now place (λ x. x.next_out) result }
{
    let view = View::with_place(shape, words, bytes, place);
    StoreAnswer::from(view.map(|view| store_sessions::next_outgoing(&view, place)))
}

// The hash of the newest n numbers' messages.
pub fn store_last_outgoing(
    words: &[u64],
    bytes: &[u8],
    shape: Shape,
    place: usize,
    n: u64,
) -> StoreAnswer
    ensures { Reads shape words.now bytes.now place (λ x. last_out x n) result }
{
    let view = View::with_place(shape, words, bytes, place);
    StoreAnswer::from(view.map(|view| store_sessions::last_outgoing(&view, place, n)))
}

// How many messages are stored: every stored number is from 1.
pub fn store_count(words: &[u64], bytes: &[u8], shape: Shape, place: usize) -> StoreAnswer
    ensures { Reads shape words.now bytes.now place (λ x. length (numbered_from 1 x.messages)) result }
{
    let view = View::with_place(shape, words, bytes, place);
    StoreAnswer::from(view.map(|view| store_sessions::messages_from(&view, place, 1).left as u64))
}

// ---- the durable mark, promotion: 0, or a refusal

pub fn store_mark_durable(words: &mut [u64], bytes: &[u8], shape: Shape, place: usize) -> u8
    ensures { ChangeIs shape place 0 mark_durable words.old words.new bytes.now bytes.now result }
{
    if !store_areas::in_use(words, bytes, shape, place) {
        return Refusal::RulesBroken.number();
    }
    store_areas::mark_durable(words, shape, place);
    0
}

// Promotion's work on one session.
pub fn store_take_over(
    words: &mut [u64],
    bytes: &mut [u8],
    shape: Shape,
    place: usize,
    lag: u64,
) -> u8
    ensures { ChangeIs shape place 0 (taken_over lag) words.old words.new bytes.old bytes.new result }
{
    if !store_areas::in_use(words, bytes, shape, place) {
        return Refusal::RulesBroken.number();
    }
    let mut store = Store {
        words,
        bytes,
        shape,
    };
    store_sessions::take_over(&mut store, place, lag);
    0
}

// FNV-1a over bytes, on from h.
pub fn store_fnv(hash: u64, s: &[u8]) -> u64
    ensures { result ≡ fnv hash s.now }
{
    store_log::fnv::bytes(hash, s)
}

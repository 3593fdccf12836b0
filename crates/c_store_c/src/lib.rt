// The store's operations for programs in C or Rust: each is the function of `c_store` under the same name.
// C hands the four texts of a key apart.
#![tactic(auto)]

ghost use Rattle.std.specs.Prelude.{◌≡◌, length};
ghost use Rattle.model_session.specs.Summary.{fnv, numbered_from, last_out};
ghost use Rattle.model_standby.specs.Store.{mark_durable, taken_over};
ghost use Rattle.store_place.specs.Place.{key_from};
ghost use Rattle.c_store.specs.Total.{Reads, MadeIs, ChangeIs, OpenIs};

use c_store::StoreAnswer;
use store_areas::Shape;

// Makes a store without sessions.
#[unsafe(no_mangle)]
pub extern "C" fn store_make(words: &mut [u64], bytes: &[u8], shape: Shape) -> u8
    ensures { MadeIs shape words.old words.new bytes.now result }
{
    c_store::store_make(words, bytes, shape)
}

// Opens the session of a key if it has none, and answers its place: 5 for what is no key, 20 where every place is taken.
#[unsafe(no_mangle)]
pub extern "C" fn store_open(
    words: &mut [u64],
    bytes: &mut [u8],
    shape: Shape,
    begin: &[u8],
    sender: &[u8],
    target: &[u8],
    suffix: &[u8],
) -> StoreAnswer
    ensures { OpenIs shape (key_from begin.now sender.now target.now suffix.now) words.old words.new bytes.old bytes.new result }
{
    c_store::store_open(words, bytes, shape, begin, sender, target, suffix)
}

#[unsafe(no_mangle)]
pub extern "C" fn store_next_outgoing(
    words: &[u64],
    bytes: &[u8],
    shape: Shape,
    place: usize,
) -> StoreAnswer
    ensures { Reads shape words.now bytes.now place (λ x. x.next_out) result }
{
    c_store::store_next_outgoing(words, bytes, shape, place)
}

// The hash of the newest n numbers' messages.
#[unsafe(no_mangle)]
pub extern "C" fn store_last_outgoing(
    words: &[u64],
    bytes: &[u8],
    shape: Shape,
    place: usize,
    n: u64,
) -> StoreAnswer
    ensures { Reads shape words.now bytes.now place (λ x. last_out x n) result }
{
    c_store::store_last_outgoing(words, bytes, shape, place, n)
}

// How many messages are stored: every stored number is from 1.
#[unsafe(no_mangle)]
pub extern "C" fn store_count(
    words: &[u64],
    bytes: &[u8],
    shape: Shape,
    place: usize,
) -> StoreAnswer
    ensures { Reads shape words.now bytes.now place (λ x. length (numbered_from 1 x.messages)) result }
{
    c_store::store_count(words, bytes, shape, place)
}

#[unsafe(no_mangle)]
pub extern "C" fn store_mark_durable(
    words: &mut [u64],
    bytes: &[u8],
    shape: Shape,
    place: usize,
) -> u8
    ensures { ChangeIs shape place 0 mark_durable words.old words.new bytes.now bytes.now result }
{
    c_store::store_mark_durable(words, bytes, shape, place)
}

// Promotion's work on one session.
#[unsafe(no_mangle)]
pub extern "C" fn store_take_over(
    words: &mut [u64],
    bytes: &mut [u8],
    shape: Shape,
    place: usize,
    lag: u64,
) -> u8
    ensures { ChangeIs shape place 0 (taken_over lag) words.old words.new bytes.old bytes.new result }
{
    c_store::store_take_over(words, bytes, shape, place, lag)
}

// FNV-1a over bytes, on from h.
#[unsafe(no_mangle)]
pub extern "C" fn store_fnv(hash: u64, s: &[u8]) -> u64
    ensures { result ≡ fnv hash s.now }
{
    c_store::store_fnv(hash, s)
}

// The sessions of a store: finding and opening one, its summary and its messages, promotion of all.
// A place comes as a number beside its view: callers have it from C or from a search.
#![tactic(auto)]

ghost use Rattle.std.specs.Prelude.{◌≡◌, Bool, true, List, [], ◌∷◌, ◌++◌, ℕ, ◌+◌, ◌-◌, ◌*◌, ◌≤◌, ◌<◌, length, take, drop, set};
ghost use Rattle.model_session.specs.Session.{suits};
ghost use Rattle.model_session.specs.Summary.{last_out, summary};
ghost use Rattle.model_standby.specs.Store.{same_key, taken_over};
ghost use Rattle.frame_fields.specs.Answers.{summary_of};
ghost use Rattle.store_place.specs.Keys.{lent_key};
ghost use Rattle.store_areas.specs.Areas.{Changed, place_at, places_of, used_of};
ghost use Rattle.store_areas.specs.Same.{SameAreas};
ghost use Rattle.store_sessions.specs.Answers.{stored_place, sought_is, sought_in, Opened, TakenOver, SummaryAtPlace, TextsIn, summarised_is, SummarisedIn, summarised_at, PositionAt, FromAt, NextMessageAt};

use base_refusals::Refusal;
use frame_fields::Summary;
use frame_reader::Span;
use frame_stamp::Protocol;
use store_areas::{Shape, Store, View, word};
use store_log::LogPosition;
use store_place::Key;
use store_place::place::Place;

// A stored message: its number, where its bytes stand in the byte area (the second part is empty unless they wrap around
// the ring's end), and the place after it in the log.
#[derive(Clone, Copy)]
pub struct Message {
    pub number: u64,
    pub first: Span,
    pub second: Span,
    pub next: LogPosition,
}

// ---- keys

// Whether place i has this key.
fn has_key(view: &View, place: usize, key: &Key) -> bool
    requires { place < used_of view.now.words.now }
    ensures { result ≡ same_key (lent_key key.now) (place_at view.now.shape view.now.words.now view.now.bytes.now place).key }
{
    let stored = view.place(place);
    store_place::has_key(stored.words, stored.bytes, key)
}

// The first place with this key.
pub fn place_of(view: &View, key: &Key) -> Option<usize>
    ensures { result ≡ stored_place (lent_key key.now) (places_of view.now.shape view.now.words.now view.now.bytes.now) }
{
    (0..view.words[word::USED] as usize).find(|place| has_key(view, *place, key))
}

// The same on any areas: 25 where they break the rules.
// The areas and the shape come apart, as C lends them.
pub fn find(words: &[u64], bytes: &[u8], shape: Shape, key: &Key) -> Result<Option<usize>, Refusal>
    ensures { sought_is result ≡ sought_in shape words.now bytes.now (lent_key key.now) }
{
    let view = View::over(shape, words, bytes)?;
    Ok(place_of(&view, key))
}

// Opens the new session of a key at the next free place, and gives that.
pub fn open(store: &mut Store, key: &Key) -> usize
    requires words_bound { used_of store.old.words.now < store.old.shape.places }
    requires begin_len_bound { length key.now.begin.now ≤ 32 }
    requires sender_len_bound { length key.now.sender.now ≤ 32 }
    requires target_len_bound { length key.now.target.now ≤ 32 }
    requires suffix_len_bound { length key.now.suffix.now ≤ 32 }
    ensures place { result ≡ used_of store.old.words.now }
    ensures is { Opened store.old.shape (lent_key key.now) store.old.words.now store.new.words.now store.old.bytes.now store.new.bytes.now }
    ensures same { SameAreas store.old store.new }
{
    let used = store.words[word::USED] as usize;
    store.words[word::USED] = (used + 1) as u64;
    let spot = store.spot(used);
    let max = store.shape.messages as usize;
    store_place::new_session(
        &mut store.words[spot.words_start..spot.words_end],
        &mut store.bytes[spot.bytes_start..spot.bytes_end],
        max,
        key,
    );
    used
}

// ---- promotion

// Promotion's work on one session.
pub fn take_over(store: &mut Store, place: usize, lag: u64)
    requires { place < used_of store.old.words.now }
    ensures is { Changed store.old.shape place (taken_over lag) store.old.words.now store.new.words.now store.old.bytes.now store.new.bytes.now }
    ensures same { SameAreas store.old store.new }
{
    let spot = store.spot(place);
    let max = store.shape.messages as usize;
    store_place::take_over(
        &mut store.words[spot.words_start..spot.words_end],
        &mut store.bytes[spot.bytes_start..spot.bytes_end],
        max,
        lag,
    );
}

// Promotion's work on all sessions.
pub fn take_over_all(store: &mut Store, lag: u64)
    ensures is { TakenOver store.old.shape lag store.old.words.now store.new.words.now store.old.bytes.now store.new.bytes.now }
    ensures same { SameAreas store.old store.new }
{
    let used = store.words[word::USED] as usize;
    for i in 0..used {
        take_over(store, i, lag);
    }
}

// ---- what is stored of a session in use

pub fn next_outgoing(view: &View, place: usize) -> u64
    requires { place < used_of view.now.words.now }
    ensures { result ≡ (place_at view.now.shape view.now.words.now view.now.bytes.now place).stored.session.next_out }
{
    store_place::next_outgoing(view.place(place).words)
}

pub fn durable(view: &View, place: usize) -> bool
    requires { place < used_of view.now.words.now }
    ensures { result ≡ (place_at view.now.shape view.now.words.now view.now.bytes.now place).stored.durable }
{
    store_place::durable(view.place(place).words)
}

// Whether reading takes the session's stamp in this version, if it has one.
pub fn suits(view: &View, place: usize, protocol: Protocol) -> bool
    requires { place < used_of view.now.words.now }
    ensures { result ≡ suits protocol.version (place_at view.now.shape view.now.words.now view.now.bytes.now place).stored.session.stamp }
{
    view.place(place).suits(protocol)
}

// last_outgoing over n.
pub fn last_outgoing(view: &View, place: usize, n: u64) -> u64
    requires { place < used_of view.now.words.now }
    ensures { result ≡ last_out (place_at view.now.shape view.now.words.now view.now.bytes.now place).stored.session n }
{
    view.place(place).last_outgoing(n)
}

// The summary of the session at a place whose bytes begin at `from` in the byte area, with last_outgoing over n.
fn summary_in(stored: &Place, from: usize, n: u64) -> Summary
    requires { from + 224 < 18446744073709551616 }
    ensures { (C : ℕ) → length stored.now.bytes.now ≡ 224 + C → SummaryAtPlace C stored.now.max from n stored.now.words.now stored.now.bytes.now result }
{
    Summary {
        next_outgoing: store_place::next_outgoing(stored.words),
        next_incoming: store_place::next_incoming(stored.words),
        in_flight: store_place::in_flight(stored.words),
        created_at: Span {
            at: from + store_place::byte::STAMP,
            len: store_place::stamp(stored.words, stored.bytes).len() as u32,
        },
        marks: Span {
            at: from + store_place::byte::MARKS,
            len: store_place::marks(stored.words, stored.bytes).len() as u32,
        },
        last_outgoing: stored.last_outgoing(n),
    }
}

// The summary with last_outgoing over n; its texts are parts of the byte area.
pub fn summary_of(view: &View, place: usize, n: u64) -> Summary
    requires { place < used_of view.now.words.now }
    ensures is { summary_of view.now.bytes.now result ≡ summary (place_at view.now.shape view.now.words.now view.now.bytes.now place).stored.session n }
    ensures inside { TextsIn view.now.bytes.now result }
{
    summary_in(&view.place(place), view.spot(place).bytes_start, n)
}

// The same on any areas and of any place: 25 where they break the rules or the place isn't in use.
pub fn summary(
    words: &[u64],
    bytes: &[u8],
    shape: Shape,
    place: usize,
    n: u64,
) -> Result<Summary, Refusal>
    ensures is { summarised_is bytes.now result ≡ summarised_at shape words.now bytes.now place n }
    ensures inside { SummarisedIn bytes.now result }
{
    let view = View::with_place(shape, words, bytes, place)?;
    Ok(summary_of(&view, place, n))
}

// ---- messages

// The place in the log of a session where the messages with numbers from low begin.
pub fn messages_from(view: &View, place: usize, low: u64) -> LogPosition
    requires place_bound { place < used_of view.now.words.now }
    requires le_low { 1 ≤ low }
    ensures { FromAt view.now.shape view.now.words.now view.now.bytes.now place low result.left result.dist }
{
    view.place(place).position_from(low)
}

// The next message at a place in the log of a session.
pub fn message_at(view: &View, place: usize, position: LogPosition) -> Message
    requires place_bound { place < used_of view.now.words.now }
    requires position_at { PositionAt view.now.shape view.now.words.now view.now.bytes.now place position.left position.dist }
    requires le_left { 1 ≤ position.left }
    ensures { NextMessageAt view.now.shape view.now.words.now view.now.bytes.now place position.left position.dist result.number result.first.at result.first.len result.second.at result.second.len result.next.left result.next.dist }
{
    // By the spot, since positions are counted from it: View::place would find it a second time.
    let spot = view.spot(place);
    let stored = Place {
        words: &view.words[spot.words_start..spot.words_end],
        bytes: &view.bytes[spot.bytes_start..spot.bytes_end],
        max: view.shape.messages as usize,
    };
    let found = stored.message_at(position);
    Message {
        number: found.number,
        first: Span {
            at: spot.bytes_start + found.span.start,
            len: found.span.first as u32,
        },
        second: Span {
            at: spot.bytes_start + store_place::byte::RING,
            len: found.span.rest as u32,
        },
        next: found.next,
    }
}

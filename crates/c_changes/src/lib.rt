// The eight changes of a stored session for programs in C or Rust: 0, or a refusal; recording a message also answers the lowest number still stored. Areas that break the rules, and a place that holds no session,
// are turned down before all else (25), and nothing is asked of a caller. C lends the areas apart, and hands the shape and the place beside them.
// `c_changes_c` exports these as they stand, so their types are C's.
#![tactic(auto)]

ghost use Rattle.std.specs.Prelude.{[], ◌∷◌, List, ℕ};
ghost use Rattle.std.specs.Fn.{FnOnceTakesAtMut, FnOnceReturnsAtMut};
ghost use Rattle.model_frame.specs.Frame.{set_incoming, set_incoming_in_flight, set_in_flight, record_msg, record_bare, reset, set_created_at, set_marks};
ghost use Rattle.model_standby.specs.Store.{Stored, changed};
ghost use Rattle.c_store.specs.Total.{session_in, why_no_record, why_no_bare_record, why_no_stamp, why_no_marks, ChangeIs};
ghost use Rattle.c_changes.specs.Calls.{TakesWords, DoesWords};
ghost use Rattle.c_changes.specs.Recording.{RecordIs};

use base_refusals::Refusal;
use c_store::StoreAnswer;
use store_areas::{Shape, View};

// Changes the words of a place that is in use.
fn change_words<F: FnOnce(&mut [u64])>(
    words: &mut [u64],
    bytes: &[u8],
    shape: Shape,
    place: usize,
    change: F,
) -> u8
    requires callable { TakesWords (λ x. FnOnceTakesAtMut F.FnOnce change x) shape }
    ensures { (f : Stored → Stored) → DoesWords (λ x y. FnOnceReturnsAtMut F.FnOnce change x tt y) shape f → ChangeIs shape place 0 f words.old words.new bytes.now bytes.now result }
{
    let spot = match View::with_place(shape, words, bytes, place) {
        Ok(view) => view.spot(place),
        Err(refusal) => return refusal.number(),
    };
    change(&mut words[spot.words_start..spot.words_end]);
    0
}

pub fn store_set_next_incoming(
    words: &mut [u64],
    bytes: &[u8],
    shape: Shape,
    place: usize,
    seq: u64,
) -> u8
    ensures { ChangeIs shape place 0 (changed shape.bytes shape.messages (set_incoming seq ∷ [])) words.old words.new bytes.now bytes.now result }
{
    change_words(words, bytes, shape, place, |words| {
        store_place::set_next_incoming(words, seq)
    })
}

pub fn store_set_next_incoming_in_flight(
    words: &mut [u64],
    bytes: &[u8],
    shape: Shape,
    place: usize,
    seq: u64,
    in_flight: u64,
) -> u8
    ensures { ChangeIs shape place 0 (changed shape.bytes shape.messages (set_incoming_in_flight seq in_flight ∷ [])) words.old words.new bytes.now bytes.now result }
{
    change_words(words, bytes, shape, place, |words| {
        store_place::set_next_incoming_in_flight(words, seq, in_flight)
    })
}

pub fn store_set_in_flight(
    words: &mut [u64],
    bytes: &[u8],
    shape: Shape,
    place: usize,
    seq: u64,
) -> u8
    ensures { ChangeIs shape place 0 (changed shape.bytes shape.messages (set_in_flight seq ∷ [])) words.old words.new bytes.now bytes.now result }
{
    change_words(words, bytes, shape, place, |words| {
        store_place::set_in_flight(words, seq)
    })
}

pub fn store_reset(words: &mut [u64], bytes: &[u8], shape: Shape, place: usize) -> u8
    ensures { ChangeIs shape place 0 (changed shape.bytes shape.messages (reset ∷ [])) words.old words.new bytes.now bytes.now result }
{
    change_words(words, bytes, shape, place, |words| {
        store_place::reset(words, shape.messages as usize)
    })
}

// The four below can turn the change itself down, or write bytes too: a closure over both slices that refuses would ask a clause longer than the
// steps that it saves. Each finds its spot by the match that `change_words` has: `?` can't leave a function that answers a number, so a function for the
// spot would leave all four lines of it.

// A Record of the next outgoing number with this message; 40 if no number is left.
fn record(words: &mut [u64], bytes: &mut [u8], shape: Shape, place: usize, text: &[u8]) -> u8
    ensures { ChangeIs shape place (why_no_record (session_in shape words.old bytes.old place).next_out) (changed shape.bytes shape.messages (record_msg (session_in shape words.old bytes.old place).next_out text.now ∷ [])) words.old words.new bytes.old bytes.new result }
{
    let spot = match View::with_place(shape, words, bytes, place) {
        Ok(view) => view.spot(place),
        Err(refusal) => return refusal.number(),
    };
    let max = shape.messages as usize;
    let seq = store_place::next_outgoing(&words[spot.words_start..spot.words_end]);
    if seq == u64::MAX {
        return Refusal::NumberNotRecorded.number();
    }
    store_place::record(
        &mut words[spot.words_start..spot.words_end],
        &mut bytes[spot.bytes_start..spot.bytes_end],
        max,
        seq,
        text,
    );
    0
}

// A Record of the next outgoing number with this message, and the lowest number still stored then, 0 if none is; 40 if no number is left.
pub fn store_record(
    words: &mut [u64],
    bytes: &mut [u8],
    shape: Shape,
    place: usize,
    text: &[u8],
) -> StoreAnswer
    ensures { RecordIs shape place text.now words.old words.new bytes.old bytes.new result }
{
    let refusal = record(words, bytes, shape, place, text);
    if refusal != 0 {
        return StoreAnswer { refusal, value: 0 };
    }
    StoreAnswer {
        refusal: 0,
        value: store_lowest::lowest(words, bytes, shape, place).unwrap_or(0),
    }
}

// A Record without message; 40 for a number below the next outgoing one or 2^64 - 1.
pub fn store_record_none(
    words: &mut [u64],
    bytes: &[u8],
    shape: Shape,
    place: usize,
    seq: u64,
) -> u8
    ensures { ChangeIs shape place (why_no_bare_record (session_in shape words.old bytes.now place).next_out seq) (changed shape.bytes shape.messages (record_bare seq ∷ [])) words.old words.new bytes.now bytes.now result }
{
    let spot = match View::with_place(shape, words, bytes, place) {
        Ok(view) => view.spot(place),
        Err(refusal) => return refusal.number(),
    };
    let max = shape.messages as usize;
    let next = store_place::next_outgoing(&words[spot.words_start..spot.words_end]);
    if seq < next || seq == u64::MAX {
        return Refusal::NumberNotRecorded.number();
    }
    store_place::record_none(&mut words[spot.words_start..spot.words_end], max, seq);
    0
}

// 6 for what is no stamp.
pub fn store_set_created_at(
    words: &mut [u64],
    bytes: &mut [u8],
    shape: Shape,
    place: usize,
    text: &[u8],
) -> u8
    ensures { ChangeIs shape place (why_no_stamp text.now) (changed shape.bytes shape.messages (set_created_at text.now ∷ [])) words.old words.new bytes.old bytes.new result }
{
    let spot = match View::with_place(shape, words, bytes, place) {
        Ok(view) => view.spot(place),
        Err(refusal) => return refusal.number(),
    };
    if !frame_stamp::is_stamp(text) {
        return Refusal::BadTimestamp.number();
    }
    store_place::set_created_at(
        &mut words[spot.words_start..spot.words_end],
        &mut bytes[spot.bytes_start..spot.bytes_end],
        text,
    );
    0
}

// 7 for what are no marks.
pub fn store_set_marks(
    words: &mut [u64],
    bytes: &mut [u8],
    shape: Shape,
    place: usize,
    text: &[u8],
) -> u8
    ensures { ChangeIs shape place (why_no_marks text.now) (changed shape.bytes shape.messages (set_marks text.now ∷ [])) words.old words.new bytes.old bytes.new result }
{
    let spot = match View::with_place(shape, words, bytes, place) {
        Ok(view) => view.spot(place),
        Err(refusal) => return refusal.number(),
    };
    if !frame_stamp::is_marks(text) {
        return Refusal::BadMarks.number();
    }
    store_place::set_marks(
        &mut words[spot.words_start..spot.words_end],
        &mut bytes[spot.bytes_start..spot.bytes_end],
        text,
    );
    0
}

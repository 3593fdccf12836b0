// The eight changes of a stored session for programs in C or Rust: each is the function of `c_changes` under the same name.
#![tactic(auto)]

ghost use Rattle.std.specs.Prelude.{[], ◌∷◌};
ghost use Rattle.model_frame.specs.Frame.{set_incoming, set_incoming_in_flight, set_in_flight, record_bare, reset, set_created_at, set_marks};
ghost use Rattle.model_standby.specs.Store.{changed};
ghost use Rattle.c_store.specs.Total.{session_in, why_no_bare_record, why_no_stamp, why_no_marks, ChangeIs};
ghost use Rattle.c_changes.specs.Recording.{RecordIs};

use c_store::StoreAnswer;
use store_areas::Shape;

#[unsafe(no_mangle)]
pub extern "C" fn store_set_next_incoming(
    words: &mut [u64],
    bytes: &[u8],
    shape: Shape,
    place: usize,
    seq: u64,
) -> u8
    ensures { ChangeIs shape place 0 (changed shape.bytes shape.messages (set_incoming seq ∷ [])) words.old words.new bytes.now bytes.now result }
{
    c_changes::store_set_next_incoming(words, bytes, shape, place, seq)
}

#[unsafe(no_mangle)]
pub extern "C" fn store_set_next_incoming_in_flight(
    words: &mut [u64],
    bytes: &[u8],
    shape: Shape,
    place: usize,
    seq: u64,
    in_flight: u64,
) -> u8
    ensures { ChangeIs shape place 0 (changed shape.bytes shape.messages (set_incoming_in_flight seq in_flight ∷ [])) words.old words.new bytes.now bytes.now result }
{
    c_changes::store_set_next_incoming_in_flight(words, bytes, shape, place, seq, in_flight)
}

#[unsafe(no_mangle)]
pub extern "C" fn store_set_in_flight(
    words: &mut [u64],
    bytes: &[u8],
    shape: Shape,
    place: usize,
    seq: u64,
) -> u8
    ensures { ChangeIs shape place 0 (changed shape.bytes shape.messages (set_in_flight seq ∷ [])) words.old words.new bytes.now bytes.now result }
{
    c_changes::store_set_in_flight(words, bytes, shape, place, seq)
}

// A Record of the next outgoing number with this message, and the lowest number still stored then, 0 if none is; 40 if no number is left.
#[unsafe(no_mangle)]
pub extern "C" fn store_record(
    words: &mut [u64],
    bytes: &mut [u8],
    shape: Shape,
    place: usize,
    text: &[u8],
) -> StoreAnswer
    ensures { RecordIs shape place text.now words.old words.new bytes.old bytes.new result }
{
    c_changes::store_record(words, bytes, shape, place, text)
}

// A Record without message; 40 for a number below the next outgoing one or 2^64 - 1.
#[unsafe(no_mangle)]
pub extern "C" fn store_record_none(
    words: &mut [u64],
    bytes: &[u8],
    shape: Shape,
    place: usize,
    seq: u64,
) -> u8
    ensures { ChangeIs shape place (why_no_bare_record (session_in shape words.old bytes.now place).next_out seq) (changed shape.bytes shape.messages (record_bare seq ∷ [])) words.old words.new bytes.now bytes.now result }
{
    c_changes::store_record_none(words, bytes, shape, place, seq)
}

#[unsafe(no_mangle)]
pub extern "C" fn store_reset(words: &mut [u64], bytes: &[u8], shape: Shape, place: usize) -> u8
    ensures { ChangeIs shape place 0 (changed shape.bytes shape.messages (reset ∷ [])) words.old words.new bytes.now bytes.now result }
{
    c_changes::store_reset(words, bytes, shape, place)
}

// 6 for what is no stamp.
#[unsafe(no_mangle)]
pub extern "C" fn store_set_created_at(
    words: &mut [u64],
    bytes: &mut [u8],
    shape: Shape,
    place: usize,
    text: &[u8],
) -> u8
    ensures { ChangeIs shape place (why_no_stamp text.now) (changed shape.bytes shape.messages (set_created_at text.now ∷ [])) words.old words.new bytes.old bytes.new result }
{
    c_changes::store_set_created_at(words, bytes, shape, place, text)
}

// 7 for what are no marks.
#[unsafe(no_mangle)]
pub extern "C" fn store_set_marks(
    words: &mut [u64],
    bytes: &mut [u8],
    shape: Shape,
    place: usize,
    text: &[u8],
) -> u8
    ensures { ChangeIs shape place (why_no_marks text.now) (changed shape.bytes shape.messages (set_marks text.now ∷ [])) words.old words.new bytes.old bytes.new result }
{
    c_changes::store_set_marks(words, bytes, shape, place, text)
}

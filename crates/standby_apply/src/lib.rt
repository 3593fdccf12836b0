// Making changes to a stored session (standby.rs, apply), at one place of a store.
// `apply` and `apply_all` take the slices of a place and its room for messages, as store_place's changes do: a struct over `&mut` words
// would have to promise, beside each change, that they are the same ones.
#![tactic(auto)]

ghost use Rattle.std.specs.Prelude.{◌≡◌, true, [], ◌∷◌, ℕ, ◌+◌, ◌*◌, ◌≤◌, ◌<◌, length};
ghost use Rattle.model_frame.specs.Writing.{fine_change};
ghost use Rattle.model_session.specs.Session.{fits};
ghost use Rattle.model_standby.specs.Store.{on_stored, changed};
ghost use Rattle.frame_op.specs.Answers.{op_of, held_run};
ghost use Rattle.store_place.specs.Place.{next_out_of, place_in};
ghost use Rattle.store_areas.specs.Areas.{Changed, place_at, used_of};
ghost use Rattle.store_areas.specs.Same.{SameAreas};
ghost use Rattle.store_place.specs.PlaceByte;

mod held;

use frame_op::Op;
use frame_reader::Reader;
pub use held::apply_held_at;
use standby_changes::Changes;
use store_areas::Store;

// Makes the change that `op`, one of those of a run, names. Inlined, so that what was read isn't copied first.
#[inline(always)]
pub fn apply(changes: &Changes, op: Op, words: &mut [u64], bytes: &mut [u8], max: usize)
    requires max_in_bounds { 16 + 2 * max ≤ length words.old }
    requires in_bounds { PlaceByte.ring ≤ length bytes.old }
    requires op_value { fine_change changes.now.protocol.version (op_of changes.now.run.now op) ≡ true }
    requires op_value_2 { fits (next_out_of words.old) (op_of changes.now.run.now op ∷ []) ≡ true }
    ensures { (C : ℕ) → length bytes.old ≡ PlaceByte.ring + C → place_in C max words.new bytes.new ≡ on_stored (changed C max (op_of changes.now.run.now op ∷ [])) (place_in C max words.old bytes.old) }
{
    match op {
        Op::SetNextIncoming(seq) => store_place::set_next_incoming(words, seq),
        Op::SetNextIncomingInFlight { seq, in_flight } => {
            store_place::set_next_incoming_in_flight(words, seq, in_flight)
        }
        Op::SetInFlight(seq) => store_place::set_in_flight(words, seq),
        Op::Record(seq, msg) => store_place::record(
            words,
            bytes,
            max,
            seq,
            frame_reader::slice(changes.run, msg),
        ),
        Op::RecordNone(seq) => store_place::record_none(words, max, seq),
        Op::Reset => store_place::reset(words, max),
        Op::SetCreatedAt(at) => store_place::set_created_at(
            words,
            bytes,
            frame_reader::slice(changes.run, at),
        ),
        Op::SetMarks(marks) => store_place::set_marks(
            words,
            bytes,
            frame_reader::slice(changes.run, marks),
        ),
    }
}

// Makes all changes of a run, whose outgoing numbers follow on from the session's.
pub fn apply_all(changes: &Changes, words: &mut [u64], bytes: &mut [u8], max: usize)
    requires max_in_bounds { 16 + 2 * max ≤ length words.old }
    requires in_bounds { PlaceByte.ring ≤ length bytes.old }
    requires run_value { fits (next_out_of words.old) (held_run changes.now.protocol.version changes.now.run.now) ≡ true }
    ensures { (C : ℕ) → length bytes.old ≡ PlaceByte.ring + C → place_in C max words.new bytes.new ≡ on_stored (changed C max (held_run changes.now.protocol.version changes.now.run.now)) (place_in C max words.old bytes.old) }
{
    for op in changes.iter() {
        apply(changes, op, words, bytes, max);
    }
}

// Makes all changes of a run at place i of a store, which is in use.
pub fn apply_at(changes: &Changes, store: &mut Store, place: usize)
    requires place_bound { place < used_of store.old.words.now }
    requires run_value { fits (place_at store.old.shape store.old.words.now store.old.bytes.now place).stored.session.next_out (held_run changes.now.protocol.version changes.now.run.now) ≡ true }
    ensures is { Changed store.old.shape place (changed store.old.shape.bytes store.old.shape.messages (held_run changes.now.protocol.version changes.now.run.now)) store.old.words.now store.new.words.now store.old.bytes.now store.new.bytes.now }
    ensures same { SameAreas store.old store.new }
{
    let spot = store.spot(place);
    let max = store.shape.messages as usize;
    apply_all(
        changes,
        &mut store.words[spot.words_start..spot.words_end],
        &mut store.bytes[spot.bytes_start..spot.bytes_end],
        max,
    );
}

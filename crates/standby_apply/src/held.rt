// Making all changes that are held to a stored session (standby.rs, apply), segment after segment.
ghost use Rattle.std.specs.Prelude.{◌≡◌, true, ℕ, ◌+◌, ◌*◌, ◌≤◌, ◌<◌, length};
ghost use Rattle.model_session.specs.Session.{fits};
ghost use Rattle.model_standby.specs.Store.{on_stored, changed};
ghost use Rattle.store_place.specs.Place.{next_out_of, place_in};
ghost use Rattle.store_areas.specs.Areas.{Changed, place_at, used_of};
ghost use Rattle.store_areas.specs.Same.{SameAreas};
ghost use Rattle.standby_segments.specs.Steps.{all_of, run_of};

use standby_changes::Changes;
use standby_segments::{HeldChanges, Segment};
use store_areas::Store;

// Makes all changes of a segment, whose outgoing numbers follow on from the session's.
pub fn apply_segment(segment: &Segment, words: &mut [u64], bytes: &mut [u8], max: usize)
    requires max_in_bounds { 16 + 2 * max ≤ length words.old }
    requires in_bounds { 224 ≤ length bytes.old }
    requires run_value { fits (next_out_of words.old) (run_of segment.now) ≡ true }
    ensures { (C : ℕ) → length bytes.old ≡ 224 + C → place_in C max words.new bytes.new ≡ on_stored (changed C max (run_of segment.now)) (place_in C max words.old bytes.old) }
{
    let changes = Changes::new(segment.protocol, segment.bytes);
    for op in segment.iter() {
        crate::apply(&changes, op, words, bytes, max);
    }
}

// Makes all changes that are held, whose outgoing numbers follow on from the session's.
pub fn apply_held(held: &HeldChanges, words: &mut [u64], bytes: &mut [u8], max: usize)
    requires max_in_bounds { 16 + 2 * max ≤ length words.old }
    requires in_bounds { 224 ≤ length bytes.old }
    requires run_value { fits (next_out_of words.old) (all_of held.now) ≡ true }
    ensures { (C : ℕ) → length bytes.old ≡ 224 + C → place_in C max words.new bytes.new ≡ on_stored (changed C max (all_of held.now)) (place_in C max words.old bytes.old) }
{
    for segment in held.segments() {
        apply_segment(&segment, words, bytes, max);
    }
}

// Makes all changes that are held at place i of a store, which is in use.
pub fn apply_held_at(held: &HeldChanges, store: &mut Store, place: usize)
    requires place_bound { place < used_of store.old.words.now }
    requires run_value { fits (place_at store.old.shape store.old.words.now store.old.bytes.now place).stored.session.next_out (all_of held.now) ≡ true }
    ensures is { Changed store.old.shape place (changed store.old.shape.bytes store.old.shape.messages (all_of held.now)) store.old.words.now store.new.words.now store.old.bytes.now store.new.bytes.now }
    ensures same { SameAreas store.old store.new }
{
    let spot = store.spot(place);
    let max = store.shape.messages as usize;
    apply_held(
        held,
        &mut store.words[spot.words_start..spot.words_end],
        &mut store.bytes[spot.bytes_start..spot.bytes_end],
        max,
    );
}

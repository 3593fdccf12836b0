// A Batch on a bound handle (standby.rs, on_batch): Commit, Whole, LastWhole.
#![tactic(auto)]

ghost use Rattle.std.specs.Prelude.{◌≡◌, true, false, ◌≤◌, ◌<◌, length};
ghost use Rattle.model_frame.specs.Frame.{commit, last_whole};
ghost use Rattle.frame_op.specs.Answers.{held_run};
ghost use Rattle.standby_segments.specs.Segments.{hold_areas, held_in};
ghost use Rattle.standby_segments.specs.Steps.{all_of};
ghost use Rattle.store_areas.specs.Same.{SameAreas};
ghost use Rattle.standby_pending.specs.Pending.{count_of};
ghost use Rattle.standby_part.specs.Part.{part_refusal, not_held, settled_of, SettledIs, PartIs, WholeIs, AreaIs};
ghost use Rattle.standby_part.specs.State.{holding_to};
ghost use Rattle.store_areas.specs.Areas.{used_of};

use base_refusals::Refusal;
use frame_fields::CommitNumber;
use frame_stamp::Protocol;
use standby_changes::{AllChanges, Changes};
use standby_hold::{HeldBytes, HoldError, NotHeld};
use standby_row::Bound;
use standby_segments::HeldChanges;
use store_areas::Store;

// What a Commit, Whole or LastWhole gives, with the handle's record as it is to be where it changes. A refusal may change the
// record and a Nack is an answer, so that this is no Result.
#[derive(Clone, Copy)]
pub enum PartResult {
    // Turned down.
    Refused(Refusal),
    // Turned down, and the record counts the messages all the same.
    RefusedHolding(Refusal, Bound),
    // The answer is Nack Diverged.
    Diverged(Bound),
    // The answer is an Ack.
    Accepted(Bound),
}

// The record with another commit number and other held changes.
fn with_held(bound: Bound, number: CommitNumber, held: HeldBytes) -> Bound
    ensures { result ≡ holding_to bound number held.used held.sum }
{
    Bound {
        commit_no: number,
        held_len: held.used,
        held_bytes: held.sum,
        ..bound
    }
}

// What a part gives whose changes aren't held.
fn not_held(bound: Bound, error: NotHeld) -> PartResult
    ensures { result ≡ not_held bound error.held error.why }
{
    match error.why {
        HoldError::NoReset => PartResult::Refused(Refusal::NoReset),
        HoldError::TooManyBytes => PartResult::RefusedHolding(
            Refusal::TooManyBytes,
            with_held(bound, bound.commit_no, error.held),
        ),
        HoldError::AreaFull => PartResult::Refused(Refusal::HoldAreaFull),
    }
}

// What a part gives whose changes fit, or don't: the record takes the number if they are applied.
fn settled(bound: Bound, number: CommitNumber, applied: bool) -> PartResult
    ensures { result ≡ settled_of bound number applied }
{
    if applied {
        return PartResult::Accepted(Bound {
            commit_no: number,
            ..bound
        });
    }
    PartResult::Diverged(bound)
}

// Settles a run of changes at the record's place.
// Inlined, so that what was read isn't stored in one width and loaded in another: a commit takes 40 ns less.
#[inline(always)]
fn settle(changes: &Changes, store: &mut Store, bound: Bound, number: CommitNumber) -> PartResult
    requires place_bound { bound.place < used_of store.old.words.now }
    requires words_bound { count_of store.old.words.now < 64 }
    ensures is { SettledIs store.old.shape bound number (held_run changes.now.protocol.version changes.now.run.now) store.old.words.now store.new.words.now store.old.bytes.now store.new.bytes.now result }
    ensures same { SameAreas store.old store.new }
{
    let applied = standby_commit::commit_changes(changes, store, bound.place, bound.handle);
    settled(bound, number, applied)
}

// The same of all changes that are held.
fn settle_held(
    held: &HeldChanges,
    store: &mut Store,
    bound: Bound,
    number: CommitNumber,
) -> PartResult
    requires place_bound { bound.place < used_of store.old.words.now }
    requires words_bound { count_of store.old.words.now < 64 }
    ensures is { SettledIs store.old.shape bound number (all_of held.now) store.old.words.now store.new.words.now store.old.bytes.now store.new.bytes.now result }
    ensures same { SameAreas store.old store.new }
{
    let applied = standby_commit::commit_held(held, store, bound.place, bound.handle);
    settled(bound, number, applied)
}

// The changes that an area holds in its first `len` bytes, by its words: of its own, so that what the part of the area is stands once.
fn held_changes<'a>(
    protocol: Protocol,
    area: &'a [u8],
    ends: &'a [u64],
    len: usize,
) -> HeldChanges<'a>
    requires { len ≤ length area.now }
    ensures { all_of result ≡ held_in protocol.version (hold_areas area.now ends.now) len }
{
    HeldChanges::new(protocol, &area[0..len], ends)
}

// The record was found in the row, whose places only standby_rules compares with the store: each part asks for its place.
// A Commit: 15 while changes are held.
pub fn on_commit(
    changes: &Changes,
    store: &mut Store,
    area: &[u8],
    ends: &[u64],
    bound: Bound,
    number: CommitNumber,
) -> PartResult
    requires place_bound { bound.place < used_of store.old.words.now }
    requires words_bound { count_of store.old.words.now < 64 }
    requires held_len_in_bounds { bound.held_len ≤ length area.now }
    ensures is { PartIs changes.now.protocol.version store.old.shape bound number.0 commit (held_run changes.now.protocol.version changes.now.run.now) store.old.words.now store.new.words.now store.old.bytes.now store.new.bytes.now (hold_areas area.now ends.now) (hold_areas area.now ends.now) result }
    ensures same { SameAreas store.old store.new }
{
    if !held_changes(changes.protocol, area, ends, bound.held_len).is_none() {
        return PartResult::Refused(Refusal::ChangesHeld);
    }
    let none_held = Bound {
        held_len: 0,
        ..bound
    };
    settle(changes, store, none_held, number)
}

// A Whole: its changes are held after those before them, and the segment that ends there is closed if it is long enough.
// What is held before is written out here and below: a function for it, with its clause, would be longer than the two.
pub fn on_whole(
    changes: &AllChanges,
    area: &mut [u8],
    ends: &mut [u64],
    bound: Bound,
    number: CommitNumber,
) -> PartResult
    requires held_len_in_bounds { bound.held_len ≤ length area.old }
    ensures is { WholeIs changes.now.changes.protocol.version bound number.0 (held_run changes.now.changes.protocol.version changes.now.changes.run.now) (hold_areas area.old ends.old) (hold_areas area.new ends.new) result }
    ensures area { AreaIs changes.now.changes.protocol.version true bound changes.now.changes.run.now (hold_areas area.old ends.old) (hold_areas area.new ends.new) (part_refusal result) }
{
    let before = HeldBytes {
        used: bound.held_len,
        sum: bound.held_bytes,
    };
    match standby_hold::hold(changes, area, ends, before) {
        Ok(held) => {
            standby_segments::close(ends, before.used, held.used);
            PartResult::Accepted(with_held(bound, number, held))
        }
        Err(error) => not_held(bound, error),
    }
}

// A LastWhole: its changes are held too, and all of them are settled at once. Its own stand in the open segment, so only the words
// that counted before count: one that lies past what was held would count with them.
#[inline(never)]
pub fn on_last_whole(
    changes: &AllChanges,
    store: &mut Store,
    area: &mut [u8],
    ends: &[u64],
    bound: Bound,
    number: CommitNumber,
) -> PartResult
    requires place_bound { bound.place < used_of store.old.words.now }
    requires words_bound { count_of store.old.words.now < 64 }
    requires held_len_in_bounds { bound.held_len ≤ length area.old }
    ensures is { PartIs changes.now.changes.protocol.version store.old.shape bound number.0 last_whole (held_run changes.now.changes.protocol.version changes.now.changes.run.now) store.old.words.now store.new.words.now store.old.bytes.now store.new.bytes.now (hold_areas area.old ends.now) (hold_areas area.new ends.now) result }
    ensures area { AreaIs changes.now.changes.protocol.version false bound changes.now.changes.run.now (hold_areas area.old ends.now) (hold_areas area.new ends.now) (part_refusal result) }
    ensures same { SameAreas store.old store.new }
{
    let before = HeldBytes {
        used: bound.held_len,
        sum: bound.held_bytes,
    };
    let held = standby_hold::hold(changes, area, ends, before);
    match held {
        Ok(held) => {
            let none_held = Bound {
                held_len: 0,
                held_bytes: 0,
                ..bound
            };
            let closed = standby_segments::closed_ends(ends, before.used);
            let all = held_changes(changes.changes.protocol, area, closed, held.used);
            settle_held(&all, store, none_held, number)
        }
        Err(error) => not_held(bound, error),
    }
}

// The end of a Commit or LastWhole (standby.rs, on_batch): outgoing numbers are checked before anything is applied.
#![tactic(auto)]

ghost use Rattle.std.specs.Prelude.{◌<◌};
ghost use Rattle.frame_op.specs.Answers.{held_run};
ghost use Rattle.store_areas.specs.Same.{SameAreas};
ghost use Rattle.standby_pending.specs.Pending.{count_of};
ghost use Rattle.standby_segments.specs.Steps.{all_of};
ghost use Rattle.standby_commit.specs.Settling.{Settles};
ghost use Rattle.store_areas.specs.Areas.{used_of};

use standby_changes::Changes;
use standby_segments::HeldChanges;
use store_areas::Store;

// Applies a run of changes to the session at place i, and leaves a commit pending, if its outgoing numbers follow on.
// Never inlined: it keeps the run in registers, which in a caller's long function goes to memory in one width and comes back in another.
#[inline(never)]
pub fn commit_changes(changes: &Changes, store: &mut Store, place: usize, handle: u32) -> bool
    requires place_bound { place < used_of store.old.words.now }
    requires words_bound { count_of store.old.words.now < 64 }
    ensures is { Settles store.old.shape place handle (held_run changes.now.protocol.version changes.now.run.now) store.old.words.now store.new.words.now store.old.bytes.now store.new.bytes.now result }
    ensures same { SameAreas store.old store.new }
{
    let next = store_sessions::next_outgoing(&store.view(), place);
    if !changes.fits(next) {
        return false;
    }
    standby_apply::apply_at(changes, store, place);
    standby_pending::push(store.words, place, handle);
    true
}

// The same of all changes that are held.
pub fn commit_held(held: &HeldChanges, store: &mut Store, place: usize, handle: u32) -> bool
    requires place_bound { place < used_of store.old.words.now }
    requires words_bound { count_of store.old.words.now < 64 }
    ensures is { Settles store.old.shape place handle (all_of held.now) store.old.words.now store.new.words.now store.old.bytes.now store.new.bytes.now result }
    ensures same { SameAreas store.old store.new }
{
    let next = store_sessions::next_outgoing(&store.view(), place);
    if !held.fits(next) {
        return false;
    }
    standby_apply::apply_held_at(held, store, place);
    standby_pending::push(store.words, place, handle);
    true
}

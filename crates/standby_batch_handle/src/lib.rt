// A Batch on the handle that it names (standby.rs, on_batch): 14 unbound, Nack Diverged for the number, else its part.
#![tactic(auto)]

ghost use Rattle.std.specs.Prelude.{◌≡◌, ◌<◌, IfSome};
ghost use Rattle.frame_op.specs.Answers.{held_run};
ghost use Rattle.standby_segments.specs.Segments.{hold_areas};
ghost use Rattle.frame_fields.specs.Answers.{part_of};
ghost use Rattle.store_areas.specs.Same.{SameAreas};
ghost use Rattle.standby_pending.specs.Pending.{count_of};
ghost use Rattle.standby_batch_handle.specs.Handling.{follows_of, Sound, hold_area_after, HandleIs};
ghost use Rattle.standby_part.specs.Part.{part_refusal};

use base_refusals::Refusal;
use frame_fields::{CommitNumber, Part};
use standby_changes::AllChanges;
use standby_part::PartResult;
use standby_row::Bound;
use store_areas::Store;

// Whether a commit number follows the handle's: none follows the last one.
fn is_next(bound: Bound, number: CommitNumber) -> bool
    ensures { result ≡ follows_of bound number.0 }
{
    bound.commit_no.0.checked_add(1) == Some(number.0)
}

// Room for one commit more is asked for here and where one is pushed, since a store also stands when there is none.
pub fn on_handle(
    changes: &AllChanges,
    store: &mut Store,
    area: &mut [u8],
    ends: &mut [u64],
    handle: u32,
    bound: Option<Bound>,
    number: CommitNumber,
    part: Part,
) -> PartResult
    requires words_bound { count_of store.old.words.now < 64 }
    requires sound { IfSome bound (λ h. Sound handle h store.old.words.now (hold_areas area.old ends.old)) }
    ensures is { HandleIs changes.now.changes.protocol.version store.old.shape handle bound number.0 (part_of part) (held_run changes.now.changes.protocol.version changes.now.changes.run.now) store.old.words.now store.new.words.now store.old.bytes.now store.new.bytes.now (hold_areas area.old ends.old) (hold_areas area.new ends.new) result }
    ensures area { hold_areas area.new ends.new ≡ hold_area_after changes.now.changes.protocol.version bound number.0 (part_of part) changes.now.changes.run.now (hold_areas area.old ends.old) (part_refusal result) }
    ensures same { SameAreas store.old store.new }
{
    let Some(bound) = bound else {
        return PartResult::Refused(Refusal::Unbound);
    };
    if !is_next(bound, number) {
        return PartResult::Diverged(Bound {
            held_len: 0,
            held_bytes: 0,
            ..bound
        });
    }
    match part {
        Part::Commit => {
            standby_part::on_commit(&changes.changes, store, area, ends, bound, number)
        }
        Part::Whole => standby_part::on_whole(changes, area, ends, bound, number),
        Part::LastWhole => {
            standby_part::on_last_whole(changes, store, area, ends, bound, number)
        }
    }
}

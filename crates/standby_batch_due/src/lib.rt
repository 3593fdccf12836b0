// A Batch among the hold areas of the row's places: due commits run first (standby.rs, on_frame_held).
#![tactic(auto)]

ghost use Rattle.std.specs.Prelude.{◌≡◌, true, cond, ◌+◌, ◌*◌, ◌≤◌};
ghost use Rattle.model_text.specs.Version.{latest};
ghost use Rattle.model_frame.specs.Reading.{read_change, read_app_record};
ghost use Rattle.frame_op.specs.Answers.{run_of, HasLength};
ghost use Rattle.frame_fields.specs.Answers.{part_of};
ghost use Rattle.store_areas.specs.Areas.{Rules};
ghost use Rattle.standby_state.specs.Lent.{SameLent, holds_of};
ghost use Rattle.standby_step.specs.Steps.{room_of, room_in, is_found};
ghost use Rattle.standby_batch_due.specs.DueBatch.{spot_in, RecordRulesIn, BatchIn};

use frame_fields::Batch;
use standby_row::Lookup;
use standby_state::{Areas, Outcome, Standing};

// The length of each place's part: an area is divided evenly among the row's places; none for a row without places.
pub fn room_of(len: usize, places: usize) -> usize
    ensures { result ≡ room_of len places }
{
    len.checked_div(places).unwrap_or(0)
}

// Where the part of the record found begins; that of none begins at 0.
fn part_start(lookup: Lookup, room: usize, len: usize) -> usize
    requires { spot_in lookup * room + room ≤ len }
    ensures { result ≡ spot_in lookup * room }
{
    match lookup.own {
        Some(found) => found.at * room,
        None => 0,
    }
}

// Where the part of the record found begins and ends, of an area of so many items.
fn own_part(lookup: Lookup, len: usize) -> (usize, usize)
    ensures start { result.0 ≡ spot_in lookup * room_of len lookup.len }
    ensures end { result.1 ≡ result.0 + room_of len lookup.len }
    ensures within { result.1 ≤ len }
{
    let room = room_of(len, lookup.len);
    let start = part_start(lookup, room, len);
    (start, start + room)
}

// It asks for the rules, as in standby_frame.
pub fn run_due_then_batch(
    standing: Standing,
    areas: &mut Areas,
    frame: &[u8],
    batch: Batch,
) -> Outcome
    requires rules { Rules standing.settings.shape areas.old.words.now areas.old.bytes.now }
    requires record_rules_in { is_found standing.lookup ≡ true → RecordRulesIn standing.lookup areas.old.words.now (holds_of areas.old) }
    requires has_length { HasLength latest frame.now batch.ops }
    ensures is { BatchIn standing.settings standing.counters standing.lookup batch.handle batch.epoch.0 batch.commit_no.0 (part_of batch.part) (run_of (read_change latest) frame.now batch.ops) (run_of read_app_record frame.now batch.app_records) areas.old.words.now areas.new.words.now areas.old.bytes.now areas.new.bytes.now (holds_of areas.old) (holds_of areas.new) result }
    ensures same { SameLent areas.old areas.new }
{
    let Standing {
        settings,
        lookup,
        ..
    } = standing;
    // Each area by itself: one that is only read can't be lent through the record beside one that is written.
    let words = &mut *areas.words;
    let bytes = &mut *areas.bytes;
    let holds = &mut *areas.holds;
    let ends = &mut *areas.ends;
    let due = standby_pending_run::is_due_batch(words, batch.handle);
    standby_pending_run::run_if(words, bytes, settings.shape, due);
    let (start, end) = own_part(lookup, holds.len());
    let area = &mut holds[start..end];
    let (first, last) = own_part(lookup, ends.len());
    standby_batch::on_batch(
        standing,
        words,
        bytes,
        area,
        &mut ends[first..last],
        frame,
        batch,
    )
}

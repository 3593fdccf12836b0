// A Batch on the row's record of its handle (standby.rs, on_batch): 13 application records, Nack StaleEpoch, the epoch, then the handle.
// The areas come apart: area is a part of the lent hold areas, and an Areas made with such a part isn't covered ("a call keeps the loan of a slice in a field while another field is used").
#![tactic(auto)]

ghost use Rattle.std.specs.Prelude.{◌≡◌, true, ◌&&◌, ◌<◌, eqb, ltb};
ghost use Rattle.model_text.specs.Version.{latest};
ghost use Rattle.model_frame.specs.Parse.{is_empty};
ghost use Rattle.model_frame.specs.Reading.{read_change, read_app_record};
ghost use Rattle.frame_op.specs.Answers.{run_of, HasLength};
ghost use Rattle.frame_fields.specs.Answers.{part_of};
ghost use Rattle.standby_segments.specs.Segments.{hold_areas};
ghost use Rattle.store_areas.specs.Areas.{Rules};
ghost use Rattle.standby_pending.specs.Pending.{count_of};
ghost use Rattle.standby_step.specs.Steps.{is_found};
ghost use Rattle.standby_batch.specs.Batches.{bound_for, settled_of, RecordRules, BatchIs};

use base_refusals::Refusal;
use frame_fields::{Batch, CommitNumber, NackReason};
use frame_op::Run;
use frame_reader::Reader;
use frame_stamp::Protocol;
use standby_part::PartResult;
use standby_row::{Bound, Lookup};
use standby_state::{Outcome, Replica, Standing};
use store_areas::Store;

// Whether a run of application records is empty.
fn no_records(frame: &[u8], run: Run) -> bool
    ensures { result ≡ is_empty (run_of read_app_record frame.now run) }
{
    if run.count == 0 {
        return true;
    }
    let mut reader = Reader {
        buf: frame,
        at: run.at,
    };
    frame_fields::read_app_record(&mut reader).is_err()
}

// Whether a Batch is of an epoch below the standby's.
fn is_stale(counters: Replica, batch: Batch) -> bool
    ensures { result ≡ ltb batch.epoch.0 counters.epoch.0 }
{
    batch.epoch.0 < counters.epoch.0
}

// The record that was found, if it is the handle's.
fn bound_for(lookup: Lookup, handle: u32) -> Option<Bound>
    ensures { result ≡ bound_for lookup handle }
{
    let found = lookup.own?;
    (found.bound.handle == handle).then_some(found.bound)
}

// The answer, and what the row's record becomes.
fn part_outcome(
    counters: Replica,
    lookup: Lookup,
    part_result: PartResult,
    handle: u32,
    number: CommitNumber,
) -> Outcome
    ensures { result ≡ settled_of counters lookup part_result handle number }
{
    match part_result {
        PartResult::Refused(refusal) => standby_state::refuse(counters, refusal),
        PartResult::RefusedHolding(refusal, bound) => {
            let answer = standby_state::refused(refusal.number());
            standby_state::stored(counters, lookup, answer, handle, bound)
        }
        PartResult::Diverged(bound) => {
            let answer = standby_state::nack(handle, NackReason::Diverged as u8);
            standby_state::stored(counters, lookup, answer, handle, bound)
        }
        PartResult::Accepted(bound) => {
            let answer = standby_state::ack(handle, number);
            standby_state::stored(counters, lookup, answer, handle, bound)
        }
    }
}

pub fn on_batch(
    standing: Standing,
    words: &mut [u64],
    bytes: &mut [u8],
    area: &mut [u8],
    ends: &mut [u64],
    frame: &[u8],
    batch: Batch,
) -> Outcome
    requires rules { Rules standing.settings.shape words.old bytes.old }
    requires words_bound { count_of words.old < 64 }
    requires record_rules { is_found standing.lookup ≡ true → RecordRules standing.lookup words.old (hold_areas area.old ends.old) }
    requires has_length { HasLength latest frame.now batch.ops }
    ensures { BatchIs standing.settings standing.counters standing.lookup batch.handle batch.epoch.0 batch.commit_no.0 (part_of batch.part) (run_of (read_change latest) frame.now batch.ops) (run_of read_app_record frame.now batch.app_records) words.old words.new bytes.old bytes.new (hold_areas area.old ends.old) (hold_areas area.new ends.new) result }
{
    let Standing {
        settings,
        counters,
        lookup,
    } = standing;
    if !no_records(frame, batch.app_records) {
        return standby_state::refuse(counters, Refusal::AppRecords);
    }
    let handle = batch.handle;
    if is_stale(counters, batch) {
        let answer = standby_state::nack(handle, NackReason::StaleEpoch as u8);
        return standby_state::unchanged(counters, answer);
    }
    let changes = standby_changes::run_of(Protocol::latest(), frame, batch.ops);
    let mut store = Store {
        words,
        bytes,
        shape: settings.shape,
    };
    let part_result = standby_batch_handle::on_handle(
        &changes,
        &mut store,
        area,
        ends,
        handle,
        bound_for(lookup, handle),
        batch.commit_no,
        batch.part,
    );
    let counters = Replica {
        epoch: batch.epoch,
        ..counters
    };
    part_outcome(counters, lookup, part_result, handle, batch.commit_no)
}

// One batch of a session that is sent whole, as a frame, over the words and bytes of the session's place (active.rs, send_whole).
#![tactic(auto)]

ghost use Rattle.std.specs.Prelude.{◌≡◌, [], ℕ, ◌+◌, ◌≤◌, ◌<◌, max, length};
ghost use Rattle.model_frame.specs.Bytes.{write};
ghost use Rattle.model_frame.specs.Frame as the_frame;
ghost use Rattle.model_frame.specs.Parse.{run_bytes};
ghost use Rattle.model_frame.specs.Writing.{change_bytes, encode};
ghost use Rattle.model_frame.specs.Sizes.{sizes};
ghost use Rattle.model_session.specs.Whole.{whole_batches};
ghost use Rattle.base_bytes.specs.Put.{Put};
ghost use Rattle.frame_fields.specs.Answers.{part_of};
ghost use Rattle.store_log.specs.Log.{Position};
ghost use Rattle.store_place.specs.Place.{session_of};
ghost use Rattle.active_batch.specs.Batch.{planned_changes, Planned, part_is, WroteBatch};
ghost use Rattle.store_place.specs.PlaceByte;

use active_header::header::Header;
use active_messages::Extent;
use base_bytes::Writer;
use base_refusals::Refusal;
use frame_fields::{CommitNumber, Epoch, Part};
use store_log::LogPosition;
use store_log::log::Log;
use store_place::place::Place;

// A batch before it is written.
#[derive(Clone, Copy)]
pub struct Plan {
    // The position in the log where its messages begin.
    pub position: LogPosition,
    // The next outgoing number before it, and after it.
    pub next: u64,
    pub resume_from: u64,
    // Whether it is the last. Apart from `resume_from`: the last batch's ending needs that number too.
    pub last: bool,
    // Its changes.
    pub extent: Extent,
}

// Which batch is written: the number that it begins at, the message bytes above which it is full, and the frame's handle, epoch
// and commit number.
#[derive(Clone, Copy)]
pub struct SendBatch {
    pub from: u64,
    pub limit: u64,
    pub handle: u32,
    pub epoch: Epoch,
    pub commit_no: CommitNumber,
}

// A frame's length, and the number that sending goes on from; none after the last.
#[derive(Clone, Copy)]
pub struct BatchWritten {
    pub len: usize,
    pub resume_from: Option<u64>,
}

// ---- the batch

// Plans the batch that begins at a number, in the log of a session with this header.
// The limits stand here and not in Log, as in active_messages.
fn plan_from(header: &Header, log: &Log, from: u64, limit: u64) -> Plan
    requires max_bound { log.now.max ≤ 65536 }
    requires bytes_len_bound { length log.now.bytes.now ≤ 33554432 }
    requires bound { 1 ≤ log.now.next }
    ensures { Planned limit header.now log.now from result }
{
    let next = from.max(1);
    let position = log.position_from(next);
    let cut = active_messages::measure(log, position, next, limit);
    let opening = active_header::opening_extent(header, from);
    let ending = active_header::ending_extent(header, cut.position.left, cut.next);
    Plan {
        position,
        next,
        resume_from: cut.next,
        last: cut.position.left == 0,
        extent: Extent {
            count: opening.count + cut.extent.count + ending.count,
            size: opening.size + cut.extent.size + ending.size,
        },
    }
}

// ---- the frame

// Writes the changes of a batch that goes by a plan.
fn put_changes(header: &Header, log: &Log, batch: SendBatch, plan: Plan, writer: &mut Writer)
    requires bytes_len_bound { length log.now.bytes.now ≤ 33554432 }
    requires position { Position (length log.now.bytes.now) log.now.max log.now.next log.now.words.now log.now.bytes.now plan.position.left plan.position.dist }
    requires plan_in_bounds { writer.old.at + sizes (planned_changes batch.limit header.now log.now batch.from plan) ≤ length writer.old.out.now }
    ensures { Put writer.old (run_bytes change_bytes (planned_changes batch.limit header.now log.now batch.from plan)) writer.new }
{
    active_header::put_opening(header, batch.from, writer);
    active_messages::put_messages(log, plan.position, plan.next, batch.limit, writer);
    active_header::put_ending(header, plan.last, plan.resume_from, writer);
}

fn part_of(last: bool) -> Part
    ensures { part_of result ≡ part_is last }
{
    if last { Part::LastWhole } else { Part::Whole }
}

// Writes the frame of a batch that goes by a plan at the start of the area.
fn put_frame(header: &Header, log: &Log, batch: SendBatch, plan: Plan, out: &mut [u8])
    requires bytes_len_bound { length log.now.bytes.now ≤ 33554432 }
    requires planned { Planned batch.limit header.now log.now batch.from plan }
    requires size_in_bounds { 34 + plan.extent.size ≤ length out.old }
    ensures { out.new ≡ write out.old 0 (encode (the_frame.batch batch.handle batch.epoch.0 batch.commit_no.0 (part_is plan.last) (planned_changes batch.limit header.now log.now batch.from plan) [])) }
{
    let mut writer = Writer { out, at: 0 };
    writer.number((30 + plan.extent.size) as u32);
    frame_encode::put_head(
        batch.handle,
        batch.epoch,
        batch.commit_no,
        part_of(plan.last),
        plan.extent.count as u32,
        &mut writer,
    );
    put_changes(header, log, batch, plan, &mut writer);
    writer.number(0u32);
}

// Writes the frame of the batch that begins at a number, of the session at a place; an area that is too short is refused.
pub fn send(place: &Place, batch: SendBatch, out: &mut [u8]) -> Result<BatchWritten, Refusal>
    requires max_bound { place.now.max ≤ 65536 }
    requires bytes_len_bound { length place.now.bytes.now ≤ 33554656 }
    ensures { (C : ℕ) → length place.now.bytes.now ≡ PlaceByte.ring + C → WroteBatch batch.limit (session_of C place.now.max place.now.words.now place.now.bytes.now) batch.handle batch.epoch.0 batch.commit_no.0 batch.from out.old out.new result }
{
    let header = active_header::header_of(place.words, place.bytes);
    let log = place.log();
    let plan = plan_from(&header, &log, batch.from, batch.limit);
    let len = 34 + plan.extent.size;
    if out.len() < len {
        return Err(Refusal::NoRoom);
    }
    put_frame(&header, &log, batch, plan, out);
    Ok(BatchWritten {
        len,
        resume_from: (!plan.last).then_some(plan.resume_from),
    })
}

// How many batches send the session at a place.
pub fn batches(place: &Place, limit: u64) -> usize
    requires max_bound { place.now.max ≤ 65536 }
    requires bytes_len_bound { length place.now.bytes.now ≤ 33554656 }
    ensures is { (C : ℕ) → length place.now.bytes.now ≡ PlaceByte.ring + C → result ≡ length (whole_batches limit (session_of C place.now.max place.now.words.now place.now.bytes.now)) }
    ensures few { result ≤ 33554433 }
{
    active_messages::batches(&place.log(), limit)
}

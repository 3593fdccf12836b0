// Writing a frame of each kind from the start of an area: Unreadable, TooLong or NoRoom with the area untouched, or the frame's bytes.
// A kind's fields come one by one, as `Frame` has them: a struct of them would be another name for that kind.
#![tactic(auto)]

ghost use Rattle.std.specs.Prelude.{◌≡◌, true, ◌&&◌, ◌∷◌, ◌++◌, ℕ, ◌+◌, ◌*◌, ◌≤◌, length, take, drop};
ghost use Rattle.model_frame.specs.Bytes.{bytes_of};
ghost use Rattle.model_frame.specs.Frame as the_frame;
ghost use Rattle.model_frame.specs.Frame.{hello, welcome, bind, ack, nack, bound, checked};
ghost use Rattle.model_frame.specs.Parse.{read_num, run_bytes};
ghost use Rattle.model_frame.specs.Reading.{read_change, read_app_record};
ghost use Rattle.model_frame.specs.Writing.{blob_bytes, change_bytes, app_record_bytes, part_number, body_bytes};
ghost use Rattle.base_bytes.specs.Put.{Put};
ghost use Rattle.base_laws.specs.Wrote.{StandsAt};
ghost use Rattle.frame_reader.specs.Answers.{span_of};
ghost use Rattle.frame_op.specs.Answers.{run_of};
ghost use Rattle.frame_fields.specs.Answers.{part_of, reason_of, key_of, summary_of};
ghost use Rattle.frame_writer.specs.Encoding.{span_fits, run_reads, key_fits, summary_fits, key_size, summary_size, frame_if, Encoded};

use base_bytes::Writer;
use frame_fields::{
    AppRecord, Batch, CommitNumber, Epoch, Incarnation, NackReason, Part, SessionId, Summary, kind,
};
use frame_op::{Op, Run};
use frame_reader::Span;
use frame_stamp::Protocol;
use frame_writer::{EncodeError, MAX_FRAME_BYTES};

fn put_hello(src: &[u8], version: u16, epoch: Epoch, node: Span, kinds: Run, writer: &mut Writer)
    requires { writer.old.at + (19 + length (span_of src.now node) + kinds.count * 2) ≤ length writer.old.out.now }
    ensures { Put writer.old (1 ∷ bytes_of 2 version ++ bytes_of 8 epoch.0 ++ blob_bytes (span_of src.now node) ++ bytes_of 4 kinds.count ++ take (kinds.count * 2) (drop kinds.at src.now)) writer.new }
{
    let len = (kinds.count as usize) * 2;
    writer.byte(kind::HELLO);
    writer.number(version);
    writer.number(epoch.0);
    frame_writer::put_span(src, node, writer);
    writer.number(kinds.count);
    writer.bytes(frame_reader::bytes_at(src, kinds.at, len));
}

pub fn hello(
    src: &[u8],
    version: u16,
    epoch: Epoch,
    node: Span,
    kinds: Run,
    out: &mut [u8],
) -> Result<usize, EncodeError>
    ensures { (v : ℕ) → Encoded v (frame_if (span_fits src.now node && run_reads (read_num 2) src.now kinds) (hello version epoch.0 (span_of src.now node) (run_of (read_num 2) src.now kinds))) out.old out.new result }
{
    let fits = frame_writer::within(src, node) & frame_writer::kinds_fit(src, kinds);
    if !(fits & frame_utf8::is_utf8(frame_reader::slice(src, node))) {
        return Err(EncodeError::Unreadable);
    }
    let n = 19 + (node.len as usize) + (kinds.count as usize) * 2;
    let at = frame_writer::begin(out, n)?;
    let mut writer = Writer { out, at };
    put_hello(src, version, epoch, node, kinds, &mut writer);
    Ok(writer.at)
}

pub fn welcome(epoch: Epoch, incarnation: Incarnation, out: &mut [u8]) -> Result<usize, EncodeError>
    ensures { (v : ℕ) → Encoded v (frame_if true (welcome epoch.0 incarnation.0)) out.old out.new result }
{
    let at = frame_writer::begin(out, 17)?;
    let mut writer = Writer { out, at };
    writer.tagged(kind::WELCOME, epoch.0);
    writer.number(incarnation.0);
    Ok(writer.at)
}

fn put_bind(
    src: &[u8],
    handle: u32,
    epoch: Epoch,
    lag: u64,
    session: SessionId,
    writer: &mut Writer,
)
    requires { writer.old.at + (21 + key_size (key_of src.now session)) ≤ length writer.old.out.now }
    ensures { Put writer.old (body_bytes (bind handle epoch.0 lag (key_of src.now session))) writer.new }
{
    frame_writer::put_handle(kind::BIND, handle, writer);
    writer.number(epoch.0);
    writer.number(lag);
    frame_writer::put_session(src, session, writer);
}

pub fn bind(
    src: &[u8],
    handle: u32,
    epoch: Epoch,
    lag: u64,
    session: SessionId,
    out: &mut [u8],
) -> Result<usize, EncodeError>
    ensures { (v : ℕ) → Encoded v (frame_if (key_fits src.now session) (bind handle epoch.0 lag (key_of src.now session))) out.old out.new result }
{
    if !frame_writer::session_fits(src, session) {
        return Err(EncodeError::Unreadable);
    }
    let n = 37
        + (session.begin_string.len as usize)
        + (session.sender_comp_id.len as usize)
        + (session.target_comp_id.len as usize)
        + (session.key_suffix.len as usize);
    let at = frame_writer::begin(out, n)?;
    let mut writer = Writer { out, at };
    put_bind(src, handle, epoch, lag, session, &mut writer);
    Ok(writer.at)
}

// What stands before the changes of a batch.
pub fn put_head(
    handle: u32,
    epoch: Epoch,
    commit_no: CommitNumber,
    part: Part,
    count: u32,
    writer: &mut Writer,
)
    requires { writer.old.at + 26 ≤ length writer.old.out.now }
    ensures put { Put writer.old (4 ∷ bytes_of 4 handle ++ bytes_of 8 epoch.0 ++ bytes_of 8 commit_no.0 ++ part_number (part_of part) ∷ bytes_of 4 count) writer.new }
    ensures past { writer.new.at ≡ writer.old.at + 26 }
{
    frame_writer::put_handle(kind::BATCH, handle, writer);
    writer.number(epoch.0);
    writer.number(commit_no.0);
    writer.byte(frame_writer::part_byte(part));
    writer.number(count);
}

// The changes and the records of a batch, k and m bytes, are copied as they stand in the source.
fn put_runs(
    protocol: Protocol,
    src: &[u8],
    ops: Run,
    k: usize,
    records: Run,
    m: usize,
    writer: &mut Writer,
)
    requires stands_at { StandsAt src.now ops.at k (run_bytes change_bytes (run_of (read_change protocol.version) src.now ops)) }
    requires stands_at_2 { StandsAt src.now records.at m (run_bytes app_record_bytes (run_of read_app_record src.now records)) }
    requires m_in_bounds { writer.old.at + (4 + k + m) ≤ length writer.old.out.now }
    ensures { Put writer.old (run_bytes change_bytes (run_of (read_change protocol.version) src.now ops) ++ bytes_of 4 records.count ++ run_bytes app_record_bytes (run_of read_app_record src.now records)) writer.new }
{
    frame_op::put_run::<Op>(protocol, src, ops, k, writer);
    writer.number(records.count);
    frame_op::put_run::<AppRecord>(protocol, src, records, m, writer);
}

pub fn batch(
    protocol: Protocol,
    src: &[u8],
    batch: Batch,
    out: &mut [u8],
) -> Result<usize, EncodeError>
    ensures { Encoded protocol.version (frame_if (run_reads (read_change protocol.version) src.now batch.ops && run_reads read_app_record src.now batch.app_records) (the_frame.batch batch.handle batch.epoch.0 batch.commit_no.0 (part_of batch.part) (run_of (read_change protocol.version) src.now batch.ops) (run_of read_app_record src.now batch.app_records))) out.old out.new result }
{
    let ops = batch.ops;
    let records = batch.app_records;
    let Ok(k) = frame_op::run_len::<Op>(protocol, src, ops.at, ops.count) else {
        return Err(EncodeError::Unreadable);
    };
    let Ok(m) = frame_op::run_len::<AppRecord>(protocol, src, records.at, records.count) else {
        return Err(EncodeError::Unreadable);
    };
    if (MAX_FRAME_BYTES as usize) < k.max(m) {
        return Err(EncodeError::TooLong);
    }
    let at = frame_writer::begin(out, 30 + k + m)?;
    let mut writer = Writer { out, at };
    put_head(
        batch.handle,
        batch.epoch,
        batch.commit_no,
        batch.part,
        ops.count,
        &mut writer,
    );
    put_runs(protocol, src, ops, k, records, m, &mut writer);
    Ok(writer.at)
}

pub fn ack(handle: u32, commit_no: CommitNumber, out: &mut [u8]) -> Result<usize, EncodeError>
    ensures { (v : ℕ) → Encoded v (frame_if true (ack handle commit_no.0)) out.old out.new result }
{
    let at = frame_writer::begin(out, 13)?;
    let mut writer = Writer { out, at };
    frame_writer::put_handle(kind::ACK, handle, &mut writer);
    writer.number(commit_no.0);
    Ok(writer.at)
}

pub fn nack(handle: u32, reason: NackReason, out: &mut [u8]) -> Result<usize, EncodeError>
    ensures { (v : ℕ) → Encoded v (frame_if true (nack handle (reason_of reason))) out.old out.new result }
{
    let at = frame_writer::begin(out, 6)?;
    let mut writer = Writer { out, at };
    frame_writer::put_handle(kind::NACK, handle, &mut writer);
    writer.byte(frame_writer::reason_byte(reason));
    Ok(writer.at)
}

fn put_bound(src: &[u8], handle: u32, summary: Summary, writer: &mut Writer)
    requires { writer.old.at + (5 + summary_size (summary_of src.now summary)) ≤ length writer.old.out.now }
    ensures { Put writer.old (body_bytes (bound handle (summary_of src.now summary))) writer.new }
{
    frame_writer::put_handle(kind::BOUND, handle, writer);
    frame_writer::put_summary(src, summary, writer);
}

pub fn bound(
    protocol: Protocol,
    src: &[u8],
    handle: u32,
    summary: Summary,
    out: &mut [u8],
) -> Result<usize, EncodeError>
    ensures { Encoded protocol.version (frame_if (summary_fits src.now summary) (bound handle (summary_of src.now summary))) out.old out.new result }
{
    if !frame_writer::summary_fits(protocol, src, summary) {
        return Err(EncodeError::Unreadable);
    }
    let n = 45 + (summary.created_at.len as usize) + (summary.marks.len as usize);
    let at = frame_writer::begin(out, n)?;
    let mut writer = Writer { out, at };
    put_bound(src, handle, summary, &mut writer);
    Ok(writer.at)
}

pub fn checked(
    handle: u32,
    epoch: Epoch,
    incarnation: Incarnation,
    out: &mut [u8],
) -> Result<usize, EncodeError>
    ensures { (v : ℕ) → Encoded v (frame_if true (checked handle epoch.0 incarnation.0)) out.old out.new result }
{
    let at = frame_writer::begin(out, 21)?;
    let mut writer = Writer { out, at };
    frame_writer::put_handle(kind::CHECKED, handle, &mut writer);
    writer.number(epoch.0);
    writer.number(incarnation.0);
    Ok(writer.at)
}

// The parts of frames that are more than a plain number: the three counters, part and refusal bytes, kinds, application records, keys, summaries, batches.
#![tactic(auto)]

ghost use Rattle.std.specs.Prelude.{◌≡◌, ◌+◌, IfOk};
ghost use Rattle.model_frame.specs.Parse.{read_num};
ghost use Rattle.model_frame.specs.Reading.{read_kinds, read_app_record, read_part, read_reason, read_key, flight, read_summary};
ghost use Rattle.model_frame.specs.Frame as the_frame;
ghost use Rattle.model_frame.specs.Writing.{app_record_bytes};
ghost use Rattle.model_frame.proofs.Sound.{record_canon};
ghost use Rattle.frame_reader.proofs.Items.{stands_alone};
ghost use Rattle.frame_reader.specs.Answers.{rest, res};
ghost use Rattle.frame_op.specs.Answers.{run_of, RunIn};
ghost use Rattle.frame_fields.specs.Answers.{part_of, PartBy, reason_of, ReasonBy, record_of, key_of, KeyIn, flight_of, summary_of, SummaryIn};

use frame_op::{Item, Run};
use frame_reader::{Field, FrameError, Reader, Span, Value};
use frame_stamp::Protocol;

// The byte that a frame's body begins with: constants as in the Rust, since an enum of them would say each kind of frame twice.
pub mod kind {
    pub const HELLO: u8 = 1;

    pub const WELCOME: u8 = 2;

    pub const BIND: u8 = 3;

    pub const BATCH: u8 = 4;

    pub const ACK: u8 = 5;

    pub const NACK: u8 = 6;

    pub const BOUND: u8 = 7;

    pub const CHECKED: u8 = 8;
}

// The epoch of the lease that an active holds.
#[repr(C)]
#[derive(Clone, Copy, Debug, PartialEq, Eq)]
pub struct Epoch(pub u64);

// A run of the standby: a restart is a new one.
#[repr(C)]
#[derive(Clone, Copy, Debug, PartialEq, Eq)]
pub struct Incarnation(pub u64);

// A session's commits on one binding, counted from 1.
#[repr(C)]
#[derive(Clone, Copy, Debug, PartialEq, Eq)]
pub struct CommitNumber(pub u64);

// Whether a batch is one commit, or a part of a session sent whole, by its byte.
#[derive(Clone, Copy, Debug, PartialEq, Eq)]
pub enum Part {
    Commit = 0,
    Whole = 1,
    LastWhole = 2,
}

// Why a standby refused, by its byte.
#[derive(Clone, Copy, Debug, PartialEq, Eq)]
pub enum NackReason {
    StaleEpoch = 1,
    Diverged = 2,
    Lag = 3,
    Restarted = 4,
}

// An application's own record.
#[derive(Clone, Copy, Debug, PartialEq, Eq)]
pub struct AppRecord {
    pub kind: u16,
    pub bytes: Span,
}

// A session's key.
#[derive(Clone, Copy, Debug, PartialEq, Eq)]
pub struct SessionId {
    pub begin_string: Span,
    pub sender_comp_id: Span,
    pub target_comp_id: Span,
    pub key_suffix: Span,
}

// A session's stored state, as far as an active and its standby compare it; an empty stamp is none.
#[derive(Clone, Copy, Debug, PartialEq, Eq)]
pub struct Summary {
    pub next_outgoing: u64,
    pub next_incoming: u64,
    pub in_flight: Option<u64>,
    pub created_at: Span,
    pub marks: Span,
    pub last_outgoing: u64,
}

// One commit's changes to a session, and the application's records with them: both are runs in the bytes read.
#[derive(Clone, Copy, Debug, PartialEq, Eq)]
pub struct Batch {
    pub handle: u32,
    pub epoch: Epoch,
    pub commit_no: CommitNumber,
    pub part: Part,
    pub ops: Run,
    pub app_records: Run,
}

impl TryFrom<u8> for Part {
    type Error = FrameError;

    ghost try_from_gives = { PartBy };

    fn try_from(byte: u8) -> Result<Part, FrameError> {
        match byte {
            0 => Ok(Part::Commit),
            1 => Ok(Part::Whole),
            2 => Ok(Part::LastWhole),
            _ => Err(FrameError::Unknown(Field::Part, byte)),
        }
    }
}

pub fn read_part(reader: &mut Reader) -> Result<Part, FrameError>
    ensures read { res part_of reader.new result ≡ read_part (rest reader.old) }
    ensures same { reader.new.buf.now ≡ reader.old.buf.now }
{
    Part::try_from(reader.number::<u8>()?)
}

impl TryFrom<u8> for NackReason {
    type Error = FrameError;

    ghost try_from_gives = { ReasonBy };

    fn try_from(byte: u8) -> Result<NackReason, FrameError> {
        match byte {
            1 => Ok(NackReason::StaleEpoch),
            2 => Ok(NackReason::Diverged),
            3 => Ok(NackReason::Lag),
            4 => Ok(NackReason::Restarted),
            _ => Err(FrameError::Unknown(Field::Refusal, byte)),
        }
    }
}

pub fn read_reason(reader: &mut Reader) -> Result<NackReason, FrameError>
    ensures read { res reason_of reader.new result ≡ read_reason (rest reader.old) }
    ensures same { reader.new.buf.now ≡ reader.old.buf.now }
{
    NackReason::try_from(reader.number::<u8>()?)
}

// The kinds of application records: a kind is two bytes, so the count says where they end.
pub fn read_kinds(reader: &mut Reader) -> Result<Run, FrameError>
    ensures read { res (run_of (read_num 2) reader.old.buf.now) reader.new result ≡ read_kinds (rest reader.old) }
    ensures same { reader.new.buf.now ≡ reader.old.buf.now }
    ensures again { IfOk result (RunIn (read_num 2) reader.old.buf.now reader.new.at) }
    ensures ends { IfOk result (λ r. r.at + r.len ≡ reader.new.at) }
{
    let count = reader.count(2)?;
    let at = reader.at;
    let len = (count as usize) * 2;
    reader.at += len;
    Ok(Run { at, count, len })
}

pub fn read_app_record(reader: &mut Reader) -> Result<AppRecord, FrameError>
    ensures read { res (record_of reader.old.buf.now) reader.new result ≡ read_app_record (rest reader.old) }
    ensures same { reader.new.buf.now ≡ reader.old.buf.now }
{
    let kind = reader.number()?;
    let bytes = reader.blob()?;
    Ok(AppRecord { kind, bytes })
}

impl Item for AppRecord {
    ghost Value = { the_frame.AppRecord };

    ghost value = { record_of };

    ghost parser = { λ _. read_app_record };

    ghost bytes = { app_record_bytes };

    ghost LEAST = { 6 };

    const LEAST: u32 = 6;

    ghost canon = { λ _. stands_alone record_canon };

    fn read(reader: &mut Reader, _protocol: Protocol) -> Result<AppRecord, FrameError> {
        read_app_record(reader)
    }
}

// The four texts of a key, which is judged after all of them: a text's own fault goes before the key's.
pub fn read_session(reader: &mut Reader) -> Result<SessionId, FrameError>
    ensures read { res (key_of reader.old.buf.now) reader.new result ≡ read_key (rest reader.old) }
    ensures same { reader.new.buf.now ≡ reader.old.buf.now }
    ensures lies { IfOk result (KeyIn reader.old.buf.now) }
{
    let (begin_string, begin_fits) = reader.checked_text(1, 32)?;
    let (sender_comp_id, sender_fits) = reader.checked_text(1, 32)?;
    let (target_comp_id, target_fits) = reader.checked_text(1, 32)?;
    let (key_suffix, suffix_fits) = reader.checked_text(0, 32)?;
    if begin_fits & sender_fits & target_fits & suffix_fits {
        Ok(SessionId {
            begin_string,
            sender_comp_id,
            target_comp_id,
            key_suffix,
        })
    } else {
        Err(FrameError::Invalid(Value::Session))
    }
}

// On the wire 0 stands for none.
fn flight(n: u64) -> Option<u64>
    ensures { flight_of result ≡ flight n }
{
    if n == 0 { None } else { Some(n) }
}

pub fn read_summary(reader: &mut Reader, protocol: Protocol) -> Result<Summary, FrameError>
    ensures read { res (summary_of reader.old.buf.now) reader.new result ≡ read_summary protocol.version (rest reader.old) }
    ensures same { reader.new.buf.now ≡ reader.old.buf.now }
    ensures lies { IfOk result (SummaryIn reader.old.buf.now) }
{
    let next_outgoing = reader.number()?;
    let next_incoming = reader.number()?;
    let in_flight = flight(reader.number()?);
    let created_at = reader.stamp_or_none(protocol)?;
    let marks = reader.marks()?;
    let last_outgoing = reader.number()?;
    Ok(Summary {
        next_outgoing,
        next_incoming,
        in_flight,
        created_at,
        marks,
        last_outgoing,
    })
}

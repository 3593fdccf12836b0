// The frames an active instance and its standby exchange, and their wire form (frame.rs).
#![tactic(auto)]

ghost use Rattle.std.specs.Prelude.{◌≡◌, ℕ, IfOk};
ghost use Rattle.model_frame.specs.Reading.{hello_fields, welcome_fields, bind_fields, batch_fields, ack_fields, nack_fields, bound_fields, checked_fields, read_fields, read_body, decode};
ghost use Rattle.frame_reader.specs.Answers.{rest, res};
ghost use Rattle.frame_writer.specs.Encoding.{Encoded};
ghost use Rattle.frame.specs.Answers.{frame_of, ReadIn, reading_of, StandsIn, frame_in};

use base_bytes::LittleEndian;
use frame_fields::kind;
pub use frame_fields::{
    AppRecord, Batch, CommitNumber, Epoch, Incarnation, NackReason, Part, SessionId, Summary,
};
pub use frame_op::{Op, Run};
use frame_reader::Reader;
pub use frame_reader::{Field, FrameError, Span, Value};
use frame_stamp::Protocol;
pub use frame_writer::EncodeError;

// A frame between an active instance and its standby. Texts, changes and records are parts of the bytes it was read from.
#[derive(Clone, Copy, Debug, PartialEq, Eq)]
pub enum Frame {
    Hello {
        version: u16,
        epoch: Epoch,
        node: Span,
        app_record_kinds: Run,
    },
    Welcome {
        epoch: Epoch,
        incarnation: Incarnation,
    },
    Bind {
        handle: u32,
        epoch: Epoch,
        max_lag: u64,
        session: SessionId,
    },
    Bound {
        handle: u32,
        summary: Summary,
    },
    Batch(Batch),
    Ack {
        handle: u32,
        commit_no: CommitNumber,
    },
    Nack {
        handle: u32,
        reason: NackReason,
    },
    Checked {
        handle: u32,
        epoch: Epoch,
        incarnation: Incarnation,
    },
}

fn read_hello(reader: &mut Reader) -> Result<Frame, FrameError>
    ensures read { (v : ℕ) → res (frame_of v reader.old.buf.now) reader.new result ≡ hello_fields (rest reader.old) }
    ensures same { reader.new.buf.now ≡ reader.old.buf.now }
    ensures stands { (v : ℕ) → IfOk result (ReadIn v reader.old.buf.now) }
{
    let version = reader.number()?;
    let epoch = reader.number()?;
    let node = reader.text()?;
    let app_record_kinds = frame_fields::read_kinds(reader)?;
    Ok(Frame::Hello {
        version,
        epoch: Epoch(epoch),
        node,
        app_record_kinds,
    })
}

fn read_welcome(reader: &mut Reader) -> Result<Frame, FrameError>
    ensures read { (v : ℕ) → res (frame_of v reader.old.buf.now) reader.new result ≡ welcome_fields (rest reader.old) }
    ensures same { reader.new.buf.now ≡ reader.old.buf.now }
    ensures stands { (v : ℕ) → IfOk result (ReadIn v reader.old.buf.now) }
{
    let epoch = reader.number()?;
    let incarnation = reader.number()?;
    Ok(Frame::Welcome {
        epoch: Epoch(epoch),
        incarnation: Incarnation(incarnation),
    })
}

fn read_bind(reader: &mut Reader) -> Result<Frame, FrameError>
    ensures read { (v : ℕ) → res (frame_of v reader.old.buf.now) reader.new result ≡ bind_fields (rest reader.old) }
    ensures same { reader.new.buf.now ≡ reader.old.buf.now }
    ensures stands { (v : ℕ) → IfOk result (ReadIn v reader.old.buf.now) }
{
    let handle = reader.number()?;
    let epoch = reader.number()?;
    let max_lag = reader.number()?;
    let session = frame_fields::read_session(reader)?;
    Ok(Frame::Bind {
        handle,
        epoch: Epoch(epoch),
        max_lag,
        session,
    })
}

fn read_batch(reader: &mut Reader, protocol: Protocol) -> Result<Frame, FrameError>
    ensures read { res (frame_of protocol.version reader.old.buf.now) reader.new result ≡ batch_fields protocol.version (rest reader.old) }
    ensures same { reader.new.buf.now ≡ reader.old.buf.now }
    ensures stands { IfOk result (ReadIn protocol.version reader.old.buf.now) }
{
    let handle = reader.number()?;
    let epoch = reader.number()?;
    let commit_no = reader.number()?;
    let part = frame_fields::read_part(reader)?;
    let ops = frame_op::read_run::<Op>(reader, protocol)?;
    let app_records = frame_op::read_run::<AppRecord>(reader, protocol)?;
    Ok(Frame::Batch(Batch {
        handle,
        epoch: Epoch(epoch),
        commit_no: CommitNumber(commit_no),
        part,
        ops,
        app_records,
    }))
}

fn read_ack(reader: &mut Reader) -> Result<Frame, FrameError>
    ensures read { (v : ℕ) → res (frame_of v reader.old.buf.now) reader.new result ≡ ack_fields (rest reader.old) }
    ensures same { reader.new.buf.now ≡ reader.old.buf.now }
    ensures stands { (v : ℕ) → IfOk result (ReadIn v reader.old.buf.now) }
{
    let handle = reader.number()?;
    let commit_no = reader.number()?;
    Ok(Frame::Ack {
        handle,
        commit_no: CommitNumber(commit_no),
    })
}

fn read_nack(reader: &mut Reader) -> Result<Frame, FrameError>
    ensures read { (v : ℕ) → res (frame_of v reader.old.buf.now) reader.new result ≡ nack_fields (rest reader.old) }
    ensures same { reader.new.buf.now ≡ reader.old.buf.now }
    ensures stands { (v : ℕ) → IfOk result (ReadIn v reader.old.buf.now) }
{
    let handle = reader.number()?;
    let reason = frame_fields::read_reason(reader)?;
    Ok(Frame::Nack { handle, reason })
}

fn read_bound(reader: &mut Reader, protocol: Protocol) -> Result<Frame, FrameError>
    ensures read { (v : ℕ) → res (frame_of v reader.old.buf.now) reader.new result ≡ bound_fields protocol.version (rest reader.old) }
    ensures same { reader.new.buf.now ≡ reader.old.buf.now }
    ensures stands { (v : ℕ) → IfOk result (ReadIn v reader.old.buf.now) }
{
    let handle = reader.number()?;
    let summary = frame_fields::read_summary(reader, protocol)?;
    Ok(Frame::Bound { handle, summary })
}

fn read_checked(reader: &mut Reader) -> Result<Frame, FrameError>
    ensures read { (v : ℕ) → res (frame_of v reader.old.buf.now) reader.new result ≡ checked_fields (rest reader.old) }
    ensures same { reader.new.buf.now ≡ reader.old.buf.now }
    ensures stands { (v : ℕ) → IfOk result (ReadIn v reader.old.buf.now) }
{
    let handle = reader.number()?;
    let epoch = reader.number()?;
    let incarnation = reader.number()?;
    Ok(Frame::Checked {
        handle,
        epoch: Epoch(epoch),
        incarnation: Incarnation(incarnation),
    })
}

// The fields of a frame, by its kind.
fn read_fields(reader: &mut Reader, protocol: Protocol) -> Result<Frame, FrameError>
    ensures read { res (frame_of protocol.version reader.old.buf.now) reader.new result ≡ read_fields protocol.version (rest reader.old) }
    ensures same { reader.new.buf.now ≡ reader.old.buf.now }
    ensures stands { IfOk result (ReadIn protocol.version reader.old.buf.now) }
{
    match reader.number()? {
        kind::HELLO => read_hello(reader),
        kind::WELCOME => read_welcome(reader),
        kind::BIND => read_bind(reader),
        kind::BATCH => read_batch(reader, protocol),
        kind::ACK => read_ack(reader),
        kind::NACK => read_nack(reader),
        kind::BOUND => read_bound(reader, protocol),
        kind::CHECKED => read_checked(reader),
        k => Err(FrameError::Unknown(Field::FrameKind, k)),
    }
}

// A body to the buffer's end: nothing is left over.
fn read_body(reader: &mut Reader, protocol: Protocol) -> Result<Frame, FrameError>
    ensures read { res (frame_of protocol.version reader.old.buf.now) reader.new result ≡ read_body protocol.version (rest reader.old) }
    ensures stands { IfOk result (ReadIn protocol.version reader.old.buf.now) }
{
    let frame = read_fields(reader, protocol)?;
    if reader.left() == 0 {
        Ok(frame)
    } else {
        Err(FrameError::Truncated)
    }
}

impl Frame {
    // The version of the wire form until a Hello is accepted, and the latest one.
    pub const VERSION: u16 = Protocol::FIRST;

    pub const LATEST_VERSION: u16 = Protocol::LATEST;
    // The longest body.
    pub const MAX_FRAME_BYTES: u32 = frame_writer::MAX_FRAME_BYTES;

    // The frame at the start of the bytes and how many bytes it took, or none where more are needed; its texts, changes and records are parts of them.
    pub fn decode(protocol: Protocol, buf: &[u8]) -> Result<Option<(Frame, usize)>, FrameError>
        ensures result_value { reading_of protocol.version buf.now result ≡ decode protocol.version buf.now }
        ensures stands_in { StandsIn protocol.version buf.now result }
    {
        if buf.len() < 4 {
            return Ok(None);
        }
        let n = u32::read_at(buf, 0);
        if Self::MAX_FRAME_BYTES < n {
            return Err(FrameError::TooLong(n));
        }
        let len = n as usize;
        if buf.len() - 4 < len {
            return Ok(None);
        }
        let mut reader = Reader {
            buf: frame_reader::bytes_at(buf, 0, 4 + len),
            at: 4,
        };
        let frame = read_body(&mut reader, protocol)?;
        Ok(Some((frame, 4 + len)))
    }

    // The frame's bytes at the area's start: its texts, changes and records are taken from the source.
    pub fn encode(
        self,
        protocol: Protocol,
        src: &[u8],
        out: &mut [u8],
    ) -> Result<usize, EncodeError>
        ensures { Encoded protocol.version (frame_in protocol.version src.now self) out.old out.new result }
    {
        match self {
            Frame::Hello {
                version,
                epoch,
                node,
                app_record_kinds,
            } => { frame_encode::hello(src, version, epoch, node, app_record_kinds, out) }
            Frame::Welcome { epoch, incarnation } => {
                frame_encode::welcome(epoch, incarnation, out)
            }
            Frame::Bind {
                handle,
                epoch,
                max_lag,
                session,
            } => { frame_encode::bind(src, handle, epoch, max_lag, session, out) }
            Frame::Bound { handle, summary } => {
                frame_encode::bound(protocol, src, handle, summary, out)
            }
            Frame::Batch(b) => frame_encode::batch(protocol, src, b, out),
            Frame::Ack { handle, commit_no } => frame_encode::ack(handle, commit_no, out),
            Frame::Nack { handle, reason } => frame_encode::nack(handle, reason, out),
            Frame::Checked {
                handle,
                epoch,
                incarnation,
            } => { frame_encode::checked(handle, epoch, incarnation, out) }
        }
    }
}

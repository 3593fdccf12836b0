// A change to a session's stored state: read at a position, walked over, and written.
#![tactic(auto)]

ghost use Rattle.std.specs.Prelude.{ℕ, List, ◌≡◌, [], ◌+◌, ◌≤◌, length, IfOk};
ghost use Rattle.model_frame.specs.Frame.{Change};
ghost use Rattle.model_frame.specs.Parse.{Parser, many, forget, run_bytes};
ghost use Rattle.model_frame.specs.Writing.{change_bytes};
ghost use Rattle.base_laws.specs.Wrote.{StandsAt};
ghost use Rattle.base_bytes.specs.Put.{Put};
ghost use Rattle.model_frame.specs.Reading.{read_change};
ghost use Rattle.model_frame.proofs.Canon.{Canon};
ghost use Rattle.model_frame.proofs.SoundChange.{change_canon};
ghost use Rattle.frame_reader.proofs.Items.{stands_alone};
ghost use Rattle.frame_reader.specs.Answers.{rest, res};
ghost use Rattle.frame_op.specs.Answers.{op_of, run_of, counted, RunIn, IsSized, RunTakes};

use base_bytes::Writer;
use frame_reader::{Field, FrameError, Reader, Span};
use frame_stamp::Protocol;

// The byte that a change begins with: constants as in the Rust, since an enum of them would say each change twice.
pub mod kind {
    pub const SET_NEXT_INCOMING: u8 = 1;

    pub const SET_NEXT_INCOMING_IN_FLIGHT: u8 = 2;

    pub const SET_IN_FLIGHT: u8 = 3;

    pub const RECORD: u8 = 4;

    pub const RECORD_NONE: u8 = 5;

    pub const RESET: u8 = 6;

    pub const SET_CREATED_AT: u8 = 7;

    pub const SET_MARKS: u8 = 8;
}

// A Record with its message is one variant, a Record without another.
#[derive(Clone, Copy, Debug, PartialEq, Eq)]
pub enum Op {
    SetNextIncoming(u64),
    SetNextIncomingInFlight { seq: u64, in_flight: u64 },
    SetInFlight(u64),
    Record(u64, Span),
    RecordNone(u64),
    Reset,
    SetCreatedAt(Span),
    SetMarks(Span),
}

// So many items, the first at `at`. Reading says how many bytes they take; a caller's `Run` may have any `len`, so writing finds it anew.
#[derive(Clone, Copy, Debug, PartialEq, Eq)]
pub struct Run {
    pub at: usize,
    pub count: u32,
    pub len: usize,
}

// One change. Inlined, so that what was read isn't stored in one width and loaded in another: a commit takes 40 ns less.
#[inline(always)]
pub fn read_op(reader: &mut Reader, protocol: Protocol) -> Result<Op, FrameError>
    ensures read { res (op_of reader.old.buf.now) reader.new result ≡ read_change protocol.version (rest reader.old) }
    ensures same { reader.new.buf.now ≡ reader.old.buf.now }
{
    match reader.number()? {
        kind::SET_NEXT_INCOMING => Ok(Op::SetNextIncoming(reader.number()?)),
        kind::SET_NEXT_INCOMING_IN_FLIGHT => Ok(Op::SetNextIncomingInFlight {
            seq: reader.number()?,
            in_flight: reader.number()?,
        }),
        kind::SET_IN_FLIGHT => Ok(Op::SetInFlight(reader.number()?)),
        kind::RECORD => Ok(Op::Record(reader.number()?, reader.blob()?)),
        kind::RECORD_NONE => Ok(Op::RecordNone(reader.number()?)),
        kind::RESET => Ok(Op::Reset),
        kind::SET_CREATED_AT => Ok(Op::SetCreatedAt(reader.stamp(protocol)?)),
        kind::SET_MARKS => Ok(Op::SetMarks(reader.marks()?)),
        k => Err(FrameError::Unknown(Field::Change, k)),
    }
}

// An item of a run: what it stands for in the bytes it was read from, how many bytes it has at least, and how it is read.
pub trait Item: Drop {
    ghost Value: { Type 0 };

    ghost value: { List ℕ → Self → Value };

    ghost parser: { ℕ → Parser Value };

    ghost bytes: { Value → List ℕ };

    ghost LEAST: { ℕ };

    const LEAST: u32;

    fn read(reader: &mut Reader, protocol: Protocol) -> Result<Self, FrameError>
        ensures read { res (value reader.old.buf.now) reader.new result ≡ parser protocol.version (rest reader.old) }
        ensures same { reader.new.buf.now ≡ reader.old.buf.now };

    // The bytes that an item was read from are those it would be written as.
    ghost canon: { (version : ℕ) → Canon [] (parser version) bytes (λ _. Unit {0}) };
}

impl Item for Op {
    ghost Value = { Change };

    ghost value = { op_of };

    ghost parser = { read_change };

    ghost bytes = { change_bytes };

    ghost LEAST = { 1 };

    const LEAST: u32 = 1;

    ghost canon = { λ version. stands_alone (change_canon version) };

    // Inlined for the same reason: as a function of its own, with all of read_op in it, it hands each change back by memory.
    #[inline(always)]
    fn read(reader: &mut Reader, protocol: Protocol) -> Result<Op, FrameError> {
        read_op(reader, protocol)
    }
}

// To the end of so many items.
pub fn skip<T: Item>(reader: &mut Reader, protocol: Protocol, count: u32) -> Result<(), FrameError>
    ensures read { res (λ _. tt) reader.new result ≡ forget (many count (T.parser protocol.version) (rest reader.old)) }
    ensures same { reader.new.buf.now ≡ reader.old.buf.now }
{
    for _ in 0..count {
        T::read(reader, protocol)?;
    }
    Ok(())
}

// How many bytes so many items at a position take. The buffer comes by itself, not as a reader: of a slice in a struct it isn't known that its bytes are below 256.
pub fn run_len<T: Item>(
    protocol: Protocol,
    buf: &[u8],
    at: usize,
    count: u32,
) -> Result<usize, FrameError>
    ensures { RunTakes (T.parser protocol.version) T.bytes buf.now at count result }
{
    let start = Reader { buf, at };
    let mut end = start;
    skip::<T>(&mut end, protocol, count)?;
    Ok(start.left() - end.left())
}

// A count of items and the items, as a run.
pub fn read_run<T: Item>(reader: &mut Reader, protocol: Protocol) -> Result<Run, FrameError>
    ensures read { res (run_of (T.parser protocol.version) reader.old.buf.now) reader.new result ≡ counted T.LEAST (T.parser protocol.version) (rest reader.old) }
    ensures same { reader.new.buf.now ≡ reader.old.buf.now }
    ensures again { IfOk result (RunIn (T.parser protocol.version) reader.old.buf.now reader.new.at) }
    ensures ends { IfOk result (λ r. r.at + r.len ≡ reader.new.at) }
    ensures sized { IfOk result (IsSized (T.parser protocol.version) T.bytes reader.old.buf.now) }
{
    let count = reader.count(T::LEAST)?;
    let at = reader.at;
    let len = run_len::<T>(protocol, reader.buf, at, count)?;
    reader.at += len;
    Ok(Run { at, count, len })
}

// The items of a run of n bytes, which are copied as they stand: n is what `run_len` found, since a caller's `Run` may have any `len`.
pub fn put_run<T: Item>(protocol: Protocol, src: &[u8], run: Run, n: usize, writer: &mut Writer)
    requires stands_at { StandsAt src.now run.at n (run_bytes T.bytes (run_of (T.parser protocol.version) src.now run)) }
    requires n_in_bounds { writer.old.at + n ≤ length writer.old.out.now }
    ensures put { Put writer.old (run_bytes T.bytes (run_of (T.parser protocol.version) src.now run)) writer.new }
    ensures past { writer.new.at ≡ writer.old.at + n }
{
    writer.bytes(frame_reader::bytes_at(src, run.at, n));
}

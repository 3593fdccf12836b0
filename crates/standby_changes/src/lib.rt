// Runs of changes in frame form, as a hold area has them from its start (standby.rs, `hold` and `fits`): what stands in front,
// their message bytes, whether their outgoing numbers follow on, how long they are.
#![tactic(auto)]

ghost use Rattle.std.specs.Prelude.{ℕ, ◌≡◌, IfOk};
ghost use Rattle.model_frame.specs.Parse.{ok, is_empty, forget};
ghost use Rattle.model_frame.specs.Reading.{read_change};
ghost use Rattle.model_frame.specs.Sizes.{sizes};
ghost use Rattle.model_session.specs.Session.{fits, message_length, message_bytes};
ghost use Rattle.model_standby.specs.Standby.{starts_with_reset};
ghost use Rattle.frame_reader.specs.Answers.{rest, res};
ghost use Rattle.frame_op.specs.Answers.{op_of, held_run, HasLength};
ghost use Rattle.standby_changes.specs.Held.{outgoing_after, Follows, RunPart};
ghost use Rattle.standby_changes.specs.Steps.{IteratesOver};

pub mod changes;
mod ops;

pub use changes::{AllChanges, Changes, Ops};
use frame_op::{Op, Run};
use frame_reader::{FrameError, Reader};
use frame_stamp::Protocol;

// The message bytes of a change.
fn message_length(run: &[u8], op: Op) -> u64
    ensures { result ≡ message_length (op_of run.now op) }
{
    match op {
        Op::Record(_, msg) => frame_reader::slice(run, msg).len() as u64,
        _ => 0,
    }
}

// The outgoing number after a Record, if one follows it.
fn outgoing_after(seq: u64) -> Option<u64>
    ensures { result ≡ outgoing_after seq }
{
    seq.checked_add(1)
}

// The next outgoing number after a change, or none if the change diverges: a message that isn't next does, and so do a number
// below next and a Record of the greatest number.
pub fn outgoing_by(op: Op, next: u64) -> Option<u64>
    ensures { Follows op next result }
{
    match op {
        Op::Record(seq, _) => if seq == next {
            outgoing_after(seq)
        } else {
            None
        },
        Op::RecordNone(seq) => if next <= seq {
            outgoing_after(seq)
        } else {
            None
        },
        Op::Reset => Some(1),
        _ => Some(next),
    }
}

// The message length of a Record; of another change that of the one before it.
fn record_length(op: Op, len: u32) -> u32 {
    match op {
        Op::Record(_, msg) => msg.len,
        _ => len,
    }
}

// Skips a Record with a message of `len` bytes, if one stands here. Where the next change begins is known from `len`, before
// the length in the buffer is read: Records of one length are skipped faster so. The error only says that none stands here.
fn skip_record(reader: &mut Reader, len: u32) -> Result<(), FrameError>
    ensures past { IfOk result (λ _. (version : ℕ) → forget (read_change version (rest reader.old)) ≡ ok tt (rest reader.new)) }
    ensures same { reader.new.buf.now ≡ reader.old.buf.now }
{
    let kind = reader.number::<u8>()?;
    let _seq = reader.number::<u64>()?;
    let n = reader.number::<u32>()?;
    if kind != frame_op::kind::RECORD {
        return Err(FrameError::Truncated);
    }
    if n != len {
        return Err(FrameError::Truncated);
    }
    if reader.left() < len as usize {
        return Err(FrameError::Truncated);
    }
    reader.at += len as usize;
    Ok(())
}

// Skips a change, and gives the message length of the last Record; the change is likely a Record as long as the last one.
fn skip_change(reader: &mut Reader, protocol: Protocol, len: u32) -> Result<u32, FrameError>
    ensures past { res (λ _. tt) reader.new result ≡ forget (read_change protocol.version (rest reader.old)) }
    ensures same { reader.new.buf.now ≡ reader.old.buf.now }
{
    let mut ahead = *reader;
    if let Ok(()) = skip_record(&mut ahead, len) {
        *reader = ahead;
        return Ok(len);
    }
    let op = frame_op::read_op(reader, protocol)?;
    Ok(record_length(op, len))
}

impl<'a> Changes<'a> {
    // The changes from the start of some bytes.
    pub fn new(protocol: Protocol, run: &[u8]) -> Changes<'_>
        ensures protocol { result.protocol ≡ protocol }
        ensures run { result.run.now ≡ run.now }
    {
        Changes { protocol, run }
    }

    // The changes, one after the other.
    pub fn iter(&self) -> Ops<'a>
        ensures { IteratesOver self.now result }
    {
        Ops {
            reader: Reader {
                buf: self.run,
                at: 0,
            },
            protocol: self.protocol,
        }
    }

    // No change can be read: a look at the first one.
    pub fn is_none(&self) -> bool
        ensures { result ≡ is_empty (held_run self.now.protocol.version self.now.run.now) }
    {
        self.iter().next().is_none()
    }

    // The first change is a Reset.
    pub fn starts_with_reset(&self) -> bool
        ensures { result ≡ starts_with_reset (held_run self.now.protocol.version self.now.run.now) }
    {
        self.iter().next() == Some(Op::Reset)
    }

    // Their message bytes.
    pub fn message_bytes(&self) -> u64
        ensures { result ≡ message_bytes (held_run self.now.protocol.version self.now.run.now) }
    {
        let mut sum: u64 = 0;
        for op in self.iter() {
            sum += message_length(self.run, op);
        }
        sum
    }

    // Their outgoing numbers follow on from next_outgoing.
    pub fn fits(&self, next_outgoing: u64) -> bool
        ensures { result ≡ fits next_outgoing (held_run self.now.protocol.version self.now.run.now) }
    {
        let mut next = next_outgoing;
        for op in self.iter() {
            let Some(n) = outgoing_by(op, next) else {
                return false;
            };
            next = n;
        }
        true
    }

    // How many bytes they take. A while: changes are skipped here and not read, so that the iterator gives none of them.
    pub fn run_length(&self) -> usize
        ensures { result ≡ sizes (held_run self.now.protocol.version self.now.run.now) }
    {
        let mut reader = Reader {
            buf: self.run,
            at: 0,
        };
        let mut left = self.run.len();
        let mut len: u32 = 0;
        while let Ok(last) = skip_change(&mut reader, self.protocol, len) {
            left = reader.left();
            len = last;
        }
        self.run.len() - left
    }
}

// The changes of a run that was read from a buffer.
pub fn run_of(protocol: Protocol, buf: &[u8], run: Run) -> AllChanges<'_>
    requires { HasLength protocol.version buf.now run }
    ensures part { RunPart protocol.version buf.now run result.changes.run.now }
    ensures protocol { result.changes.protocol ≡ protocol }
{
    let changes = Changes::new(protocol, frame_reader::bytes_at(buf, run.at, run.len));
    AllChanges { changes }
}

// Sending a session whole, one frame a call (active.rs, send_whole).
#![tactic(auto)]

ghost use Rattle.std.specs.Prelude.{◌≡◌};
ghost use Rattle.active.specs.Whole.{limit_of, Begins, SendsWhole};

use active_batch::{BatchWritten, SendBatch};
use base_refusals::Refusal;
use frame_fields::{CommitNumber, Epoch};
use frame_stamp::Protocol;
use store_areas::{Shape, View};

// The line that a sending goes over: a head office's, or a branch's, which takes smaller frames.
#[derive(Clone, Copy)]
pub enum Line {
    HeadOffice,
    Branch,
}

// A sending: the version that its frames are in, the session's place, the handle, the epoch, the last commit number, the number that it goes on from (0 at first,
// as the words of a sending have it for C, none once it is done), and the line that it goes over.
#[derive(Clone, Copy)]
pub struct Sending {
    pub version: u16,
    pub place: usize,
    pub handle: u32,
    pub epoch: Epoch,
    pub last: CommitNumber,
    pub from: Option<u64>,
    pub line: Line,
}

// A frame's length, and what to hand to the next call.
#[derive(Clone, Copy)]
pub struct Sent {
    pub len: usize,
    pub next: Sending,
}

// The line's limit.
fn batch_bytes(line: Line) -> u64
    ensures { result ≡ limit_of line }
{
    match line {
        Line::HeadOffice => Sending::SNAPSHOT_BATCH_BYTES,
        Line::Branch => Sending::BRANCH_BATCH_BYTES,
    }
}

impl Sending {
    // The message bytes above which a batch is full, on a head office's line and on a branch line.
    pub const SNAPSHOT_BATCH_BYTES: u64 = 1_048_576;

    pub const BRANCH_BATCH_BYTES: u64 = 16_384;

    // Begins to send the session at a place to a handle over a line in a version, numbered on from its last commit number. Gives what to hand to the
    // first call; a session that isn't stored is 25, a version that there isn't 11, a stamp that it doesn't take 32, commit numbers that would
    // pass 2^64 - 1 are 24. The areas, the place and the handle are what C lends and names, each of its own.
    pub fn begin(
        line: Line,
        version: u16,
        shape: Shape,
        words: &[u64],
        bytes: &[u8],
        place: usize,
        handle: u32,
        epoch: Epoch,
        last: CommitNumber,
    ) -> Result<Sending, Refusal>
        ensures { Begins (limit_of line) line version shape words.now bytes.now place handle epoch.0 last.0 result }
    {
        let view = View::with_place(shape, words, bytes, place)?;
        let protocol = Protocol::new(version)?;
        let stored = view.place(place);
        if !stored.suits(protocol) {
            return Err(Refusal::LongStamp);
        }
        let count = active_batch::batches(&stored, batch_bytes(line));
        if u64::MAX - last.0 < count as u64 {
            return Err(Refusal::NumbersPast);
        }
        Ok(Sending {
            version,
            place,
            handle,
            epoch,
            last,
            from: Some(0),
            line,
        })
    }

    // Gives the next frame at the start of the lent area; nothing once the sending is done. 25 and 11 as in begin, 32 where this frame has the stamp;
    // an area that is too short is 9. The areas are what C lends, as in begin.
    pub fn send_whole(
        self,
        shape: Shape,
        words: &[u64],
        bytes: &[u8],
        out: &mut [u8],
    ) -> Result<Option<Sent>, Refusal>
        ensures { SendsWhole (limit_of self.line) shape words.now bytes.now self out.old out.new result }
    {
        let view = View::with_place(shape, words, bytes, self.place)?;
        if self.from.is_some() && self.last.0 == u64::MAX {
            return Err(Refusal::RulesBroken);
        }
        let protocol = Protocol::new(self.version)?;
        let Some(from) = self.from else {
            return Ok(None);
        };
        let stored = view.place(self.place);
        if from == 0 && !stored.suits(protocol) {
            return Err(Refusal::LongStamp);
        }
        let last = CommitNumber(self.last.0 + 1);
        let batch = SendBatch {
            from,
            limit: batch_bytes(self.line),
            handle: self.handle,
            epoch: self.epoch,
            commit_no: last,
        };
        let written = active_batch::send(&stored, batch, out)?;
        let next = Sending {
            last,
            from: written.resume_from,
            ..self
        };
        Ok(Some(Sent {
            len: written.len,
            next,
        }))
    }
}

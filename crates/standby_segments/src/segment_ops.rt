// The iterator over the changes of a segment.
ghost use Rattle.std.specs.Prelude.{◌≡◌, ◌+◌, ◌<◌, ◌≤◌, length, MatchOption};
ghost use Rattle.std.specs.Iterator.{at_most};
ghost use Rattle.frame_reader.specs.Answers.{rest};
ghost use Rattle.standby_segments.specs.Steps.{GivesOp};

use crate::segments::SegmentOps;
use frame_op::Op;
use frame_reader::Reader;

// Where the byte behind the one at a position stands, if there is one at it.
fn next_byte(buf: &[u8], at: usize) -> Option<usize>
    ensures { MatchOption result (length buf.now ≤ at) (λ n. (n ≡ at + 1) × (at < length buf.now)) }
{
    if at < buf.len() { Some(at + 1) } else { None }
}

impl Iterator for SegmentOps<'_> {
    type Item = Op;

    ghost next_gives = { GivesOp };

    ghost remaining = { λ s. at_most (length (rest s.reader)) };

    fn next(&mut self) -> Option<Op> {
        let start = self.reader;
        let mut reader = start;
        if let Ok(op) = frame_op::read_op(&mut reader, self.protocol) {
            *self = SegmentOps {
                reader,
                protocol: self.protocol,
                closed: self.closed,
            };
            return Some(op);
        }
        if !self.closed {
            return None;
        }
        // A byte at which no change can be read counts as a Reset.
        let at = next_byte(start.buf, start.at)?;
        let reader = Reader { buf: start.buf, at };
        *self = SegmentOps {
            reader,
            protocol: self.protocol,
            closed: self.closed,
        };
        Some(Op::Reset)
    }
}

// The iterator over the changes of a run.
ghost use Rattle.std.specs.Prelude.{length};
ghost use Rattle.std.specs.Iterator.{at_most};
ghost use Rattle.frame_reader.specs.Answers.{rest};
ghost use Rattle.standby_changes.specs.Steps.{StepsOps};

use crate::changes::Ops;
use frame_op::Op;

impl Iterator for Ops<'_> {
    type Item = Op;

    ghost next_gives = { StepsOps };

    ghost remaining = { λ s. at_most (length (rest s.reader)) };

    #[inline(always)]
    fn next(&mut self) -> Option<Op> {
        let mut reader = self.reader;
        let op = frame_op::read_op(&mut reader, self.protocol).ok()?;
        *self = Ops {
            reader,
            protocol: self.protocol,
        };
        Some(op)
    }
}

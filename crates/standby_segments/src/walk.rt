// The iterator over the segments of what is held.
ghost use Rattle.std.specs.Prelude.{suc, ◌-◌, cond, length};
ghost use Rattle.std.specs.Iterator.{at_most};
ghost use Rattle.standby_segments.specs.Steps.{GivesSegment};

use crate::segments::{Segment, Segments};

impl<'a> Iterator for Segments<'a> {
    type Item = Segment<'a>;

    ghost next_gives = { GivesSegment };

    ghost remaining = { λ s. at_most (cond s.done 0 (suc (length s.held.ends.now - s.index))) };

    fn next(&mut self) -> Option<Segment<'a>> {
        if self.done {
            return None;
        }
        let held = self.held;
        let from = self.from;
        if let Some(end) = crate::end_at(held.ends, self.index, from, held.bytes.len()) {
            *self = Segments {
                held,
                index: self.index + 1,
                from: end,
                done: false,
            };
            return Some(Segment {
                protocol: held.protocol,
                bytes: &held.bytes[from..end],
                closed: true,
            });
        }
        *self = Segments {
            held,
            index: self.index,
            from,
            done: true,
        };
        Some(Segment {
            protocol: held.protocol,
            bytes: &held.bytes[from..],
            closed: false,
        })
    }
}

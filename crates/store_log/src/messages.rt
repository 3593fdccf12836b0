// The iterator over the messages of a log.
ghost use Rattle.std.specs.Iterator.{at_most};
ghost use Rattle.store_log.specs.Steps.{StepsMessages};

use crate::FoundMessage;
use crate::log::Messages;

impl<'a> Iterator for Messages<'a> {
    type Item = FoundMessage;

    ghost next_gives = { StepsMessages };

    ghost remaining = { λ s. at_most s.position.left };

    fn next(&mut self) -> Option<FoundMessage> {
        if self.position.left == 0 {
            return None;
        }
        let found = self.log.message_at(self.position);
        *self = Messages {
            log: self.log,
            position: found.next,
        };
        Some(found)
    }
}

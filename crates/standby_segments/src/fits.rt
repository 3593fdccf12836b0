// Whether the outgoing numbers of what is held follow on (standby.rs, fits).
ghost use Rattle.std.specs.Prelude.{◌≡◌};
ghost use Rattle.model_session.specs.Session.{fits};
ghost use Rattle.standby_segments.specs.Steps.{all_of, run_of, FollowsRun};

use crate::segments::{HeldChanges, Segment};

impl Segment<'_> {
    // The next outgoing number after its changes, or none if they diverge.
    pub fn follow(&self, next_outgoing: u64) -> Option<u64>
        ensures { FollowsRun (run_of self.now) next_outgoing result }
    {
        let mut next = next_outgoing;
        for op in self.iter() {
            let Some(n) = standby_changes::outgoing_by(op, next) else {
                return None;
            };
            next = n;
        }
        Some(next)
    }
}

impl HeldChanges<'_> {
    // Their outgoing numbers follow on from next_outgoing.
    pub fn fits(&self, next_outgoing: u64) -> bool
        ensures { result ≡ fits next_outgoing (all_of self.now) }
    {
        let mut next = next_outgoing;
        for segment in self.segments() {
            let Some(n) = segment.follow(next) else {
                return false;
            };
            next = n;
        }
        true
    }
}

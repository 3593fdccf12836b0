// The lag queue of an active's session (active.rs, ReplicatedLog::queue): which of the batches sent are to be waited for.
#![tactic(auto)]

ghost use Rattle.std.specs.Prelude.{◌≡◌, ◌||◌, ◌-◌, ◌≤◌, take, ltb};
ghost use Rattle.active_lag.specs.Queue.{queue_of, Drains, Answers};
ghost use Rattle.model_session.specs.Lag.{new_queue};

use base_refusals::Refusal;

// The batches sent that no commit has waited for yet, oldest first: the last outgoing number of each. The room is one more
// than may wait, for the batch that was just pushed. The count is the caller's, as C lends it, and one above the room is refused: an ArrayVec would ask for a good one.
#[derive(Clone, Copy, Debug, PartialEq, Eq)]
pub struct ReplicatedLog {
    pub drained_through: u64,
    pub count: usize,
    pub queued: [u64; ReplicatedLog::MAX_QUEUED + 1],
}

// What a push does: how many batches of the front went; the queue.
#[derive(Clone, Copy, Debug, PartialEq, Eq)]
pub struct Queued {
    pub drained: usize,
    pub log: ReplicatedLog,
}

// How many batches of the front go, and the last of their numbers.
#[derive(Clone, Copy)]
struct Drained {
    drained: usize,
    through: u64,
}

// The lag is above max_lag, or more wait than may.
fn is_over(last: u64, drained: u64, max_lag: u64, waiting: usize) -> bool
    ensures { result ≡ (ltb max_lag (last - drained) || ltb 64 waiting) }
{
    max_lag < last.saturating_sub(drained) || ReplicatedLog::MAX_QUEUED < waiting
}

impl ReplicatedLog {
    // The most batches that may wait.
    pub const MAX_QUEUED: usize = 64;

    // A queue with nothing waiting.
    pub fn new(drained_through: u64) -> ReplicatedLog
        ensures { queue_of result ≡ new_queue drained_through }
    {
        ReplicatedLog {
            drained_through,
            count: 0,
            queued: [0; ReplicatedLog::MAX_QUEUED + 1],
        }
    }

    // The front goes while the lag is above max_lag or more wait than may.
    fn drain_front(self, last: u64, max_lag: u64) -> Drained
        requires { self.count ≤ 65 }
        ensures { Drains max_lag last self result.drained result.through }
    {
        let mut through = self.drained_through;
        for drained in 0..self.count {
            if !is_over(last, through, max_lag, self.count - drained) {
                return Drained { drained, through };
            }
            through = self.queued[drained];
        }
        Drained {
            drained: self.count,
            through,
        }
    }

    // Queues the batch that covers outgoing numbers through `last`, and drains the oldest until the lag is within max_lag again; a
    // queue that says to hold more than may wait is refused.
    pub fn queue(self, last: u64, max_lag: u64) -> Result<Queued, Refusal>
        ensures { Answers max_lag self last result }
    {
        if ReplicatedLog::MAX_QUEUED < self.count {
            return Err(Refusal::RulesBroken);
        }
        let waiting = self.count + 1;
        let mut log = ReplicatedLog {
            count: waiting,
            ..self
        };
        log.queued[self.count] = last;
        let Drained { drained, through } = log.drain_front(last, max_lag);
        log.queued.copy_within(drained..waiting, 0);
        Ok(Queued {
            drained,
            log: ReplicatedLog {
                drained_through: through,
                count: waiting - drained,
                queued: log.queued,
            },
        })
    }
}

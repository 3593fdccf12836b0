// An active's hold on its lease (lease.rs, `Held`), by a clock whose times are handed in as nanoseconds.
#![tactic(auto)]

ghost use Rattle.std.specs.Prelude.{◌≡◌, cond, IfOk};
ghost use Rattle.model_lease.specs.Lease.{made, renewal, attempt, is_due, end_after, loses};
ghost use Rattle.base_flags.specs.Flag.{is_set, byte};
ghost use Rattle.active_lease.specs.Held.{lease_of, renewal_of, attempt_of, asked_of, tried_of};

use base_refusals::Refusal;

// `until` is the lease's end, `last` the last time handed in; the lease is lost if `lost` isn't 0, and still tells its end. The flag is handed in by the caller, so it is
// a byte.
#[derive(Clone, Copy, Debug, PartialEq, Eq)]
pub struct Held {
    pub duration: u64,
    pub until: u64,
    pub last: u64,
    pub lost: u8,
}

// How an attempt to renew ended.
#[derive(Clone, Copy, Debug, PartialEq, Eq)]
pub enum RenewalOutcome {
    Renewed,
    Failed,
    Deposed,
}

// Whether a renewal is due, which is the answer itself, and the lease then.
#[derive(Clone, Copy, Debug, PartialEq, Eq)]
pub struct Asked {
    pub due: bool,
    pub held: Held,
}

impl Held {
    // The lease, just taken.
    pub fn new(duration: u64, now: u64) -> Held
        ensures { lease_of result ≡ made duration now }
    {
        Held {
            duration,
            until: now.saturating_add(duration),
            last: now,
            lost: 0,
        }
    }

    fn is_due(self, now: u64) -> bool
        ensures { result ≡ is_due (lease_of self) now }
    {
        let left = self.until.saturating_sub(now);
        self.lost == 0 && self.duration != u64::MAX && left <= self.duration / 2
    }

    // The lease with this last time.
    fn at(self, now: u64) -> Held
        ensures { result ≡ record self { last = now } }
    {
        Held { last: now, ..self }
    }

    // Whether a renewal is due; a time below the last one handed in is refused.
    pub fn renewal(self, now: u64) -> Result<Asked, Refusal>
        ensures answers { asked_of self result ≡ renewal (lease_of self) now }
        ensures flag { IfOk result (λ a. a.held.lost ≡ self.lost) }
    {
        if now < self.last {
            return Err(Refusal::TimeFalls);
        }
        Ok(Asked {
            due: self.is_due(now),
            held: self.at(now),
        })
    }

    // The end after an attempt.
    fn until_after(self, started: u64, outcome: RenewalOutcome) -> u64
        ensures { result ≡ end_after (lease_of self) started (renewal_of outcome) }
    {
        match outcome {
            RenewalOutcome::Renewed => started.saturating_add(self.duration),
            RenewalOutcome::Failed | RenewalOutcome::Deposed => self.until,
        }
    }

    // Whether an attempt loses the lease.
    fn loses(self, now: u64, outcome: RenewalOutcome) -> bool
        ensures { result ≡ loses self.until now (renewal_of outcome) }
    {
        match outcome {
            RenewalOutcome::Renewed => false,
            RenewalOutcome::Failed => self.until <= now,
            RenewalOutcome::Deposed => true,
        }
    }

    // The lease after an attempt to renew that started at one time, and whose outcome came at another, where a flag that is set stays byte for byte; a start below the last
    // time handed in and an outcome before its start are refused.
    pub fn attempt(self, started: u64, now: u64, outcome: RenewalOutcome) -> Result<Held, Refusal>
        ensures answers { tried_of self result ≡ attempt (lease_of self) (attempt_of started now outcome) }
        ensures flag { IfOk result (λ held. held.lost ≡ cond (is_set self.lost) self.lost (byte (attempt (lease_of self) (attempt_of started now outcome)).lease.lost)) }
    {
        if started < self.last || now < started {
            return Err(Refusal::TimeFalls);
        }
        if self.lost != 0 {
            return Ok(self.at(now));
        }
        Ok(Held {
            until: self.until_after(started, outcome),
            last: now,
            lost: u8::from(self.loses(now, outcome)),
            ..self
        })
    }
}

// An active's lease for programs in C or Rust, as four words that the caller lends. Nothing is asked of a caller: every content counts as a lease.
// `c_lease_c` exports these as they stand, so their types are C's.
#![tactic(auto)]

ghost use Rattle.std.specs.Prelude.{◌≡◌, cond, ℕ};
ghost use Rattle.model_lease.specs.Lease.{made};
ghost use Rattle.base_flags.specs.Flag.{is_set, byte};
ghost use Rattle.active_lease.specs.Held.{renewal_of};
ghost use Rattle.c_lease.specs.Boundary.{outcome_at, attempt_at, lease_in, held_in, AsksIn, TriesIn};

use active_lease::{Held, RenewalOutcome};

// The words of a lease; it is lost if the fourth isn't 0.
pub mod word {
    pub const DURATION: usize = 0;

    pub const UNTIL: usize = 1;

    pub const LAST: usize = 2;

    pub const LOST: usize = 3;
}

// In the numbers that C reads: 31 for a time below the last one handed in, else 0; 1 if a renewal is due, else 0.
#[repr(C)]
#[derive(Clone, Copy)]
pub struct Due {
    pub refusal: u8,
    pub due: u8,
}

// The outcome by the byte that C hands in: 0 renewed, 1 failed, any other deposed, since what isn't known stops the active.
fn outcome_of(outcome: u8) -> RenewalOutcome
    ensures { renewal_of result ≡ outcome_at outcome }
{
    match outcome {
        0 => RenewalOutcome::Renewed,
        1 => RenewalOutcome::Failed,
        _ => RenewalOutcome::Deposed,
    }
}

// The lease that the words stand for.
fn held_in(lease: &[u64; 4]) -> Held
    ensures { result ≡ held_in lease.now }
{
    Held {
        duration: lease[word::DURATION],
        until: lease[word::UNTIL],
        last: lease[word::LAST],
        lost: u8::from(lease[word::LOST] != 0),
    }
}

// Makes the lease, just taken.
pub fn wz_lease_new(lease: &mut [u64; 4], duration: u64, time: u64)
    ensures { lease_in lease.new ≡ made duration time }
{
    let held = Held::new(duration, time);
    *lease = [duration, held.until, time, 0];
}

// Whether a renewal is due.
pub fn wz_lease_renewal(lease: &mut [u64; 4], time: u64) -> Due
    ensures { AsksIn lease.old time result lease.new }
{
    match held_in(lease).renewal(time) {
        Ok(asked) => {
            lease[word::LAST] = asked.held.last;
            Due {
                refusal: 0,
                due: u8::from(asked.due),
            }
        }
        Err(refusal) => Due {
            refusal: refusal.number(),
            due: 0,
        },
    }
}

// The flag's word after an attempt: one that is set stays as it was.
fn flag_after(word: u64, lost: u8) -> u64
    ensures { result ≡ cond (is_set word) word lost }
{
    if word == 0 { u64::from(lost) } else { word }
}

// An attempt to renew that started at one time, and whose outcome came at another; 31 for a time that falls, else 0. A match of its own, since the words are written
// where it is done.
pub fn wz_lease_attempt(lease: &mut [u64; 4], started: u64, time: u64, outcome: u8) -> u8
    ensures { TriesIn lease.old (attempt_at started time outcome) result lease.new }
{
    match held_in(lease).attempt(started, time, outcome_of(outcome)) {
        Ok(held) => {
            lease[word::UNTIL] = held.until;
            lease[word::LAST] = held.last;
            lease[word::LOST] = flag_after(lease[word::LOST], held.lost);
            0
        }
        Err(refusal) => refusal.number(),
    }
}

// An active's lease for programs in C or Rust: each is the function of `c_lease` under the same name.
#![tactic(auto)]

ghost use Rattle.std.specs.Prelude.{◌≡◌};
ghost use Rattle.model_lease.specs.Lease.{made};
ghost use Rattle.c_lease.specs.Boundary.{attempt_at, lease_in, AsksIn, TriesIn};

use c_lease::Due;

// Makes the lease, just taken.
#[unsafe(no_mangle)]
pub extern "C" fn wz_lease_new(lease: &mut [u64; 4], duration: u64, time: u64)
    ensures { lease_in lease.new ≡ made duration time }
{
    c_lease::wz_lease_new(lease, duration, time)
}

// Whether a renewal is due.
#[unsafe(no_mangle)]
pub extern "C" fn wz_lease_renewal(lease: &mut [u64; 4], time: u64) -> Due
    ensures { AsksIn lease.old time result lease.new }
{
    c_lease::wz_lease_renewal(lease, time)
}

// An attempt to renew that started at one time, and whose outcome came at another; 31 for a time that falls, else 0.
#[unsafe(no_mangle)]
pub extern "C" fn wz_lease_attempt(lease: &mut [u64; 4], started: u64, time: u64, outcome: u8) -> u8
    ensures { TriesIn lease.old (attempt_at started time outcome) result lease.new }
{
    c_lease::wz_lease_attempt(lease, started, time, outcome)
}

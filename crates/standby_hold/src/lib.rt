// Holding a part of a session that is sent whole, until the last (standby.rs, hold).
#![tactic(auto)]

ghost use Rattle.std.specs.Prelude.{◌≡◌, cond, not, ◌&&◌, ◌≤◌, length, eqb};
ghost use Rattle.model_standby.specs.Standby.{starts_with_reset};
ghost use Rattle.frame_op.specs.Answers.{held_run};
ghost use Rattle.standby_segments.specs.Segments.{hold_areas};
ghost use Rattle.standby_hold.specs.Holding.{HoldIs};

use standby_changes::{AllChanges, Changes};
use standby_counters::Replica;

// How many bytes of the area are held, and their messages' byte sum.
#[derive(Clone, Copy, Debug, PartialEq, Eq)]
pub struct HeldBytes {
    pub used: usize,
    pub sum: u64,
}

// Why a run of changes isn't held.
#[derive(Clone, Copy, Debug, PartialEq, Eq)]
pub enum HoldError {
    // Nothing is held and no Reset stands in front.
    NoReset,
    // The messages have too many bytes.
    TooManyBytes,
    // The area is too short.
    AreaFull,
}

// A run isn't held: why, and what is held as before, with a byte sum that counts the run's messages all the same.
// The sum is told with each of the three, and a caller keeps it for TooManyBytes.
#[derive(Clone, Copy, Debug, PartialEq, Eq)]
pub struct NotHeld {
    pub why: HoldError,
    pub held: HeldBytes,
}

// The byte sum of what is held: with nothing held it counts as 0.
fn counted(used: usize, sum: u64) -> u64
    ensures { result ≡ cond (eqb used 0) 0 sum }
{
    if used == 0 { 0 } else { sum }
}

// Whether nothing is held and no Reset stands in front.
fn lacks_reset(changes: &Changes, used: usize) -> bool
    ensures { result ≡ (eqb used 0 && not (starts_with_reset (held_run changes.now.protocol.version changes.now.run.now))) }
{
    used == 0 && !changes.starts_with_reset()
}

// Writes a run of changes after those held in the first bytes of the area, whose number and messages' byte sum are given.
pub fn hold(
    all: &AllChanges,
    area: &mut [u8],
    ends: &[u64],
    held: HeldBytes,
) -> Result<HeldBytes, NotHeld>
    requires { held.used ≤ length area.old }
    ensures { HoldIs all.now.changes.protocol.version all.now.changes.run.now (hold_areas area.old ends.now) held.used held.sum area.new result }
{
    let changes = &all.changes;
    let used = standby_segments::held_length(changes.protocol, &area[0..held.used], ends);
    let sum = counted(used, held.sum).saturating_add(changes.message_bytes());
    let end = used + changes.run.len();
    let held = HeldBytes { used, sum };
    if lacks_reset(changes, used) {
        return Err(NotHeld {
            why: HoldError::NoReset,
            held,
        });
    }
    if Replica::MAX_WHOLE_SESSION_BYTES < sum {
        return Err(NotHeld {
            why: HoldError::TooManyBytes,
            held,
        });
    }
    if area.len() < end {
        return Err(NotHeld {
            why: HoldError::AreaFull,
            held,
        });
    }
    base_bytes::copy(changes.run, area, used);
    Ok(HeldBytes { used: end, sum })
}

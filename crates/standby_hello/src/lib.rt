// Hello and Checked, which need no more than the counters (standby.rs, two arms of `answer`).
#![tactic(auto)]

ghost use Rattle.std.specs.Prelude.{◌≡◌, ℕ, max};
ghost use Rattle.standby_hello.specs.Greeting.{HelloIs, CheckedIs, connected_to, checked_to};

use base_refusals::Refusal;
use frame_fields::{CommitNumber, Epoch, Incarnation, NackReason};
use frame_stamp::Protocol;
use standby_state::{Outcome, Replica, Settings};

// This run of the standby: 0 is taken as 1.
pub fn incarnation(settings: Settings) -> Incarnation
    ensures { result.0 ≡ max settings.incarnation.0 1 }
{
    Incarnation(settings.incarnation.0.max(1))
}

// One connection more, at this epoch and of this version; the count stops at 2^64 - 1.
fn connected(counters: Replica, epoch: Epoch, version2: u8) -> Replica
    ensures { result ≡ connected_to counters epoch version2 }
{
    Replica {
        epoch,
        connections: counters.connections.saturating_add(1),
        version2,
        ..counters
    }
}

fn checked_at(counters: Replica, epoch: Epoch) -> Replica
    ensures { result ≡ checked_to counters epoch }
{
    Replica {
        epoch,
        checked: 1,
        ..counters
    }
}

// Hello: 11 version not 1 or 2, 12 kinds listed; a lower epoch is told the standby's.
pub fn on_hello(
    counters: Replica,
    settings: Settings,
    version: u16,
    epoch: Epoch,
    no_kinds: bool,
) -> Outcome
    ensures { HelloIs counters settings version epoch.0 no_kinds result }
{
    let protocol = match Protocol::new(version) {
        Ok(p) => p,
        Err(_) => return standby_state::refuse(counters, Refusal::BadVersion),
    };
    if !no_kinds {
        return standby_state::refuse(counters, Refusal::KindsListed);
    }
    let own = counters.epoch;
    let run = incarnation(settings);
    if epoch.0 < own.0 {
        return standby_state::unchanged(counters, standby_state::welcome(own, run));
    }
    standby_state::cleared(
        connected(counters, epoch, protocol.byte()),
        standby_state::welcome(epoch, run),
    )
}

// Checked: Nack StaleEpoch, Nack Restarted; else the standby may be promoted.
pub fn on_checked(
    counters: Replica,
    settings: Settings,
    handle: u32,
    epoch: Epoch,
    incarnation_sent: Incarnation,
) -> Outcome
    ensures { CheckedIs counters settings handle epoch.0 incarnation_sent.0 result }
{
    let own = counters.epoch;
    if epoch.0 < own.0 {
        let stale = standby_state::nack(handle, NackReason::StaleEpoch as u8);
        return standby_state::unchanged(counters, stale);
    }
    if incarnation_sent.0 != incarnation(settings).0 {
        let restarted = standby_state::nack(handle, NackReason::Restarted as u8);
        return standby_state::unchanged(counters, restarted);
    }
    standby_state::unchanged(
        checked_at(counters, epoch),
        standby_state::ack(handle, CommitNumber(0)),
    )
}

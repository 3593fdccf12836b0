// The standby's calls over the lent counters, the lent row of handles, the store's two areas, the hold areas and the ends of their segments (standby.rs, `Replica`); `replica_c` has them for C.
// C lends the counters, the row and the areas, each apart; the six calls are names of their own that hand on to one function.
#![tactic(auto)]

ghost use Rattle.std.specs.Prelude.{◌≡◌, max};
ghost use Rattle.base_flags.specs.Flag.{is_set};
ghost use Rattle.model_standby.specs.State.{on_frame_held, on_frame, flush, disconnected_from, promote, promote_unchecked};
ghost use Rattle.standby_segments.specs.Segments.{hold_areas};
ghost use Rattle.standby_step.specs.Calls.{Called};
ghost use Rattle.standby_call.specs.Call.{call_of};
ghost use Rattle.replica.specs.Making.{new_replica, MadeOver};
ghost use Rattle.store_areas.specs.Areas.{used_of};

use base_refusals::Refusal;
use frame_fields::{Epoch, Incarnation};
use standby_call::Call;
use standby_row::Bound;
use standby_state::{Answer, Areas, Replica, Settings, Standing};
use store_areas::word;

// How many places of the store are in use.
fn places_in_use(words: &[u64]) -> usize
    ensures { result ≡ used_of words.now }
{
    words.get(word::USED).copied().unwrap_or(0) as usize
}

// Any of the six calls: what is found in the row, the call by value, what it hands up, and what it does to the row and the counters.
fn on_call(
    counters: &mut Replica,
    row: &mut [Bound],
    words: &mut [u64],
    bytes: &mut [u8],
    holds: &mut [u8],
    ends: &mut [u64],
    frame: &[u8],
    settings: Settings,
    call: Call,
) -> Answer
    ensures { Called settings (call_of call frame.now) counters.old counters.new row.old row.new words.old words.new bytes.old bytes.new (hold_areas holds.old ends.old) (hold_areas holds.new ends.new) result }
{
    let handle = standby_call::sought_by(frame, call);
    let used = places_in_use(words);
    let room = standby_batch_due::room_of(holds.len(), row.len());
    let lookup = standby_row::find(row, handle, used, room);
    let standing = Standing {
        settings,
        counters: *counters,
        lookup,
    };
    let mut areas = Areas {
        row,
        words,
        bytes,
        holds,
        ends,
    };
    let outcome = standby_call::run(standing, &mut areas, frame, call);
    let answer = outcome.answer;
    let lowest = standby_call::handed_up(settings, lookup, words, bytes, frame, call, answer);
    outcome.action.apply(row);
    *counters = outcome.replica;
    answer.handing_up(lowest)
}

// A frame that may be held back: its answer is sent once the pending commits have run.
pub fn on_frame_held(
    counters: &mut Replica,
    row: &mut [Bound],
    words: &mut [u64],
    bytes: &mut [u8],
    holds: &mut [u8],
    ends: &mut [u64],
    frame: &[u8],
    settings: Settings,
) -> Answer
    ensures { Called settings (on_frame_held frame.now) counters.old counters.new row.old row.new words.old words.new bytes.old bytes.new (hold_areas holds.old ends.old) (hold_areas holds.new ends.new) result }
{
    let call = Call::OnFrameHeld;
    on_call(
        counters, row, words, bytes, holds, ends, frame, settings, call,
    )
}

// A frame, and then the pending commits.
pub fn on_frame(
    counters: &mut Replica,
    row: &mut [Bound],
    words: &mut [u64],
    bytes: &mut [u8],
    holds: &mut [u8],
    ends: &mut [u64],
    frame: &[u8],
    settings: Settings,
) -> Answer
    ensures { Called settings (on_frame frame.now) counters.old counters.new row.old row.new words.old words.new bytes.old bytes.new (hold_areas holds.old ends.old) (hold_areas holds.new ends.new) result }
{
    let call = Call::OnFrame;
    on_call(
        counters, row, words, bytes, holds, ends, frame, settings, call,
    )
}

// Runs the pending commits of a connection.
pub fn flush(
    counters: &mut Replica,
    row: &mut [Bound],
    words: &mut [u64],
    bytes: &mut [u8],
    holds: &mut [u8],
    ends: &mut [u64],
    connection: u64,
    settings: Settings,
) -> Answer
    ensures { Called settings (flush connection) counters.old counters.new row.old row.new words.old words.new bytes.old bytes.new (hold_areas holds.old ends.old) (hold_areas holds.new ends.new) result }
{
    let call = Call::Flush { connection };
    on_call(
        counters,
        row,
        words,
        bytes,
        holds,
        ends,
        &[],
        settings,
        call,
    )
}

// The connection is gone: with it go the bindings and the pending commits.
pub fn disconnected_from(
    counters: &mut Replica,
    row: &mut [Bound],
    words: &mut [u64],
    bytes: &mut [u8],
    holds: &mut [u8],
    ends: &mut [u64],
    connection: u64,
    settings: Settings,
) -> Answer
    ensures { Called settings (disconnected_from connection) counters.old counters.new row.old row.new words.old words.new bytes.old bytes.new (hold_areas holds.old ends.old) (hold_areas holds.new ends.new) result }
{
    let call = Call::DisconnectedFrom { connection };
    on_call(
        counters,
        row,
        words,
        bytes,
        holds,
        ends,
        &[],
        settings,
        call,
    )
}

// Promotes a standby that was checked.
pub fn promote(
    counters: &mut Replica,
    row: &mut [Bound],
    words: &mut [u64],
    bytes: &mut [u8],
    holds: &mut [u8],
    ends: &mut [u64],
    settings: Settings,
) -> Answer
    ensures { Called settings promote counters.old counters.new row.old row.new words.old words.new bytes.old bytes.new (hold_areas holds.old ends.old) (hold_areas holds.new ends.new) result }
{
    let call = Call::Promote;
    on_call(
        counters,
        row,
        words,
        bytes,
        holds,
        ends,
        &[],
        settings,
        call,
    )
}

// Promotes a standby, checked or not.
pub fn promote_unchecked(
    counters: &mut Replica,
    row: &mut [Bound],
    words: &mut [u64],
    bytes: &mut [u8],
    holds: &mut [u8],
    ends: &mut [u64],
    settings: Settings,
) -> Answer
    ensures { Called settings promote_unchecked counters.old counters.new row.old row.new words.old words.new bytes.old bytes.new (hold_areas holds.old ends.old) (hold_areas holds.new ends.new) result }
{
    let call = Call::PromoteUnchecked;
    on_call(
        counters,
        row,
        words,
        bytes,
        holds,
        ends,
        &[],
        settings,
        call,
    )
}

// The counters of a standby that is new: no epoch yet, no connection, neither promoted nor checked.
pub fn new() -> Replica
    ensures { result ≡ new_replica }
{
    Replica {
        epoch: Epoch(0),
        connections: 0,
        promoted: 0,
        checked: 0,
        version2: 0,
    }
}

// Makes a standby over a store: new counters, no pending commit, every record of the row freed.
pub fn make(
    counters: &mut Replica,
    row: &mut [Bound],
    words: &mut [u64],
    bytes: &[u8],
    settings: Settings,
) -> Answer
    ensures { MadeOver settings counters.old counters.new row.old row.new words.old words.new bytes.now result }
{
    if !store_areas::allowed(settings.shape, words, bytes) {
        return standby_state::refused(Refusal::RulesBroken.number());
    }
    words[word::PENDING] = 0;
    standby_row::clear(row, 0);
    *counters = new();
    standby_state::done()
}

// The standby's epoch.
pub fn epoch(counters: Replica) -> Epoch
    ensures { result ≡ counters.epoch }
{
    counters.epoch
}

// The connections so far: the number of the last one.
pub fn connection(counters: Replica) -> u64
    ensures { result ≡ counters.connections }
{
    counters.connections
}

pub fn checked(counters: Replica) -> bool
    ensures { result ≡ is_set counters.checked }
{
    counters.checked != 0
}

pub fn promoted(counters: Replica) -> bool
    ensures { result ≡ is_set counters.promoted }
{
    counters.promoted != 0
}

// This run of the standby: 0 is taken as 1.
pub fn incarnation(settings: Settings) -> Incarnation
    ensures { result.0 ≡ max settings.incarnation.0 1 }
{
    standby_hello::incarnation(settings)
}

// The calls that carry no frame, by value: flush, a connection lost, promotion (standby.rs, `flush`, `disconnected_from`, `promote`, `promote_unchecked`).
// Each call tests the rules itself, so that it asks nothing of its caller.
#![tactic(auto)]

ghost use Rattle.std.specs.Prelude.{◌≡◌};
ghost use Rattle.store_areas.specs.Same.{SameAreas};
ghost use Rattle.model_standby.specs.State.{flush, disconnected_from, promote, promote_unchecked};
ghost use Rattle.standby_state.specs.Lent.{SameLent};
ghost use Rattle.standby_step.specs.Over.{StepOver};
ghost use Rattle.standby_lifecycle.specs.Calls.{promoted_from, Promoted};

use base_refusals::Refusal;
use standby_state::{Areas, Outcome, Replica, Standing};
use store_areas::Store;

// The counters of a standby that is promoted.
fn promoted_from(counters: Replica) -> Replica
    ensures { result ≡ promoted_from counters }
{
    Replica {
        promoted: 1,
        ..counters
    }
}

// Promotion: pending commits are forgotten, every session is taken over, every handle is freed.
fn promotion(counters: Replica, lag: u64, store: &mut Store) -> Outcome
    ensures is { Promoted store.old.shape lag counters store.old.words.now store.new.words.now store.old.bytes.now store.new.bytes.now result }
    ensures same { SameAreas store.old store.new }
{
    standby_pending::clear(store.words);
    store_sessions::take_over_all(store, lag);
    standby_state::cleared(promoted_from(counters), standby_state::done())
}

// Runs the pending commits of the connection: 22 if it is not the newest one, or after promotion.
pub fn flush(standing: Standing, areas: &mut Areas, connection: u64) -> Outcome
    ensures is { StepOver standing (flush connection) areas.old areas.new result }
    ensures same { SameLent areas.old areas.new }
{
    let Standing {
        settings,
        counters,
        ..
    } = standing;
    if !standby_rules::are_kept(standing, areas) {
        return standby_state::refuse(counters, Refusal::RulesBroken);
    }
    if (connection != counters.connections) | (counters.promoted != 0) {
        return standby_state::refuse(counters, Refusal::OtherConnection);
    }
    let bytes = &mut *areas.bytes;
    standby_pending_run::run(areas.words, bytes, settings.shape);
    standby_state::unchanged(counters, standby_state::done())
}

// The newest connection is lost: its handles are freed and its pending commits forgotten. Another one changes nothing.
pub fn disconnected_from(standing: Standing, areas: &mut Areas, connection: u64) -> Outcome
    ensures is { StepOver standing (disconnected_from connection) areas.old areas.new result }
    ensures same { SameLent areas.old areas.new }
{
    let Standing {
        settings,
        counters,
        ..
    } = standing;
    if !standby_rules::are_kept(standing, areas) {
        return standby_state::refuse(counters, Refusal::RulesBroken);
    }
    if connection != counters.connections {
        return standby_state::unchanged(counters, standby_state::done());
    }
    standby_pending::clear(areas.words);
    standby_state::cleared(counters, standby_state::done())
}

// Promotes the standby: 23 if no Checked came for it.
pub fn promote(standing: Standing, areas: &mut Areas) -> Outcome
    ensures is { StepOver standing promote areas.old areas.new result }
    ensures same { SameLent areas.old areas.new }
{
    let Standing {
        settings,
        counters,
        ..
    } = standing;
    if !standby_rules::are_kept(standing, areas) {
        return standby_state::refuse(counters, Refusal::RulesBroken);
    }
    if counters.checked == 0 {
        return standby_state::refuse(counters, Refusal::Unchecked);
    }
    let mut store = Store {
        words: &mut *areas.words,
        bytes: &mut *areas.bytes,
        shape: settings.shape,
    };
    promotion(counters, settings.max_lag, &mut store)
}

// Promotes the standby without that.
pub fn promote_unchecked(standing: Standing, areas: &mut Areas) -> Outcome
    ensures is { StepOver standing promote_unchecked areas.old areas.new result }
    ensures same { SameLent areas.old areas.new }
{
    let Standing {
        settings,
        counters,
        ..
    } = standing;
    if !standby_rules::are_kept(standing, areas) {
        return standby_state::refuse(counters, Refusal::RulesBroken);
    }
    let mut store = Store {
        words: &mut *areas.words,
        bytes: &mut *areas.bytes,
        shape: settings.shape,
    };
    promotion(counters, settings.max_lag, &mut store)
}

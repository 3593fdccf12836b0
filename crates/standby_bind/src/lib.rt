// Bind (standby.rs, an arm of `answer`): a handle is bound to the session of a key, which is opened if it is new, and its summary is answered.
// Another handle that has the session loses it, and its place in the row counts as free.
#![tactic(auto)]

ghost use Rattle.std.specs.Prelude.{◌≡◌, ◌||◌, ◌<◌, true, ltb, is_some};
ghost use Rattle.model_session.specs.Summary.{summary};
ghost use Rattle.model_session.specs.Session.{suits};
ghost use Rattle.model_standby.specs.Store.{place_of, session_at, or_new};
ghost use Rattle.frame_stamp.specs.Versions.{version_of};
ghost use Rattle.frame_fields.specs.Answers.{key_of};
ghost use Rattle.store_areas.specs.Areas.{Rules, place_at, places_of, used_of};
ghost use Rattle.store_areas.specs.Same.{SameAreas};
ghost use Rattle.store_sessions.specs.Answers.{stored_place};
ghost use Rattle.standby_state.specs.Answers.{brief_of};
ghost use Rattle.standby_state.specs.Exact.{ExactSummary};
ghost use Rattle.standby_state.specs.Lent.{SameLent, holds_of};
ghost use Rattle.standby_bind.specs.Binding.{Short, new_handle, BindOpens, BindIs};

use base_refusals::Refusal;
use frame::SessionId;
use frame_fields::{CommitNumber, Epoch, NackReason};
use frame_stamp::Protocol;
use standby_row::Bound;
use standby_state::{Areas, BoundSummary, Outcome, Standing};
use store_areas::{Store, word};
use store_place::Key;

// What a Bound says of the session at a place in use.
fn summary_at(store: &Store, place: usize, n: u64) -> BoundSummary
    requires { place < used_of store.now.words.now }
    ensures exact { ExactSummary store.now.bytes.now result }
    ensures is { brief_of store.now.bytes.now result ≡ summary (place_at store.now.shape store.now.words.now store.now.bytes.now place).stored.session n }
{
    BoundSummary::from(store_sessions::summary_of(&store.view(), place, n))
}

// The four texts of a key that was read from a frame.
fn key_in(frame: &[u8], session: SessionId) -> Key<'_>
    ensures begin { result.begin.now ≡ (key_of frame.now session).begin }
    ensures sender { result.sender.now ≡ (key_of frame.now session).sender }
    ensures target { result.target.now ≡ (key_of frame.now session).target }
    ensures suffix { result.suffix.now ≡ (key_of frame.now session).suffix }
{
    Key {
        begin: frame_reader::slice(frame, session.begin_string),
        sender: frame_reader::slice(frame, session.sender_comp_id),
        target: frame_reader::slice(frame, session.target_comp_id),
        suffix: frame_reader::slice(frame, session.key_suffix),
    }
}

// The place of a key that is stored.
fn place_of(store: &Store, frame: &[u8], session: SessionId) -> Option<usize>
    ensures { result ≡ stored_place (key_of frame.now session) (places_of store.now.shape store.now.words.now store.now.bytes.now) }
{
    store_sessions::place_of(&store.view(), &key_in(frame, session))
}

// The place of a key, whose session is opened where it is new.
fn open(store: &mut Store, frame: &[u8], session: SessionId, found: Option<usize>) -> usize
    requires found_value { found ≡ stored_place (key_of frame.now session) (places_of store.old.shape store.old.words.now store.old.bytes.now) }
    requires room { (is_some found || ltb (used_of store.old.words.now) store.old.shape.places) ≡ true }
    requires short { Short (key_of frame.now session) }
    ensures place { result ≡ place_of (key_of frame.now session) (places_of store.old.shape store.old.words.now store.old.bytes.now) }
    ensures is { BindOpens store.old.shape (key_of frame.now session) store.old.words.now store.new.words.now store.old.bytes.now store.new.bytes.now }
    ensures same { SameAreas store.old store.new }
{
    match found {
        Some(place) => place,
        None => store_sessions::open(store, &key_in(frame, session)),
    }
}

// Whether the connection's version takes the stamp of the key's session, if it has one: a new session has none.
fn suits(
    store: &Store,
    frame: &[u8],
    session: SessionId,
    found: Option<usize>,
    version2: u8,
) -> bool
    requires { found ≡ stored_place (key_of frame.now session) (places_of store.now.shape store.now.words.now store.now.bytes.now) }
    ensures { result ≡ suits (version_of version2) (or_new (session_at (places_of store.now.shape store.now.words.now store.now.bytes.now) (place_of (key_of frame.now session) (places_of store.now.shape store.now.words.now store.now.bytes.now)))).stamp }
{
    match found {
        Some(place) => { store_sessions::suits(&store.view(), place, Protocol::of_byte(version2)) }
        None => true,
    }
}

// Whether there is a session place for a key: its own, or a free one.
fn has_place(used: u64, found: Option<usize>, places: u32) -> bool
    ensures { result ≡ (is_some found || ltb used places) }
{
    found.is_some() || used < places as u64
}

// A handle newly bound to a place.
fn new_bound(handle: u32, place: usize) -> Bound
    ensures { result ≡ new_handle handle place }
{
    Bound {
        used: 1,
        handle,
        place,
        commit_no: CommitNumber(0),
        held_len: 0,
        held_bytes: 0,
    }
}

// Nack StaleEpoch, Nack Lag, 32 a stamp that the connection's version doesn't take, 20 no free session place for a new key, 21 no place in the row; all
// are found before anything changes.
// The four fields of the frame are taken one by one: a struct of them would be made for this one call.
pub fn on_bind(
    standing: Standing,
    areas: &mut Areas,
    frame: &[u8],
    handle: u32,
    epoch: Epoch,
    max_lag: u64,
    session: SessionId,
) -> Outcome
    requires rules { Rules standing.settings.shape areas.old.words.now areas.old.bytes.now }
    requires short { Short (key_of frame.now session) }
    ensures is { BindIs standing.settings standing.counters standing.lookup areas.old.row.now handle epoch.0 max_lag (key_of frame.now session) areas.old.words.now areas.new.words.now areas.old.bytes.now areas.new.bytes.now result }
    ensures holds { holds_of areas.new ≡ holds_of areas.old }
    ensures same { SameLent areas.old areas.new }
{
    let Standing {
        settings,
        counters,
        lookup,
    } = standing;
    if epoch.0 < counters.epoch.0 {
        let stale = standby_state::nack(handle, NackReason::StaleEpoch as u8);
        return standby_state::unchanged(counters, stale);
    }
    if settings.max_lag < max_lag {
        let lagging = standby_state::nack(handle, NackReason::Lag as u8);
        return standby_state::unchanged(counters, lagging);
    }
    let row = areas.row;
    let mut store = Store {
        words: &mut *areas.words,
        bytes: &mut *areas.bytes,
        shape: settings.shape,
    };
    let found = place_of(&store, frame, session);
    if !suits(&store, frame, session, found, counters.version2) {
        return standby_state::refuse(counters, Refusal::LongStamp);
    }
    let used = store.words[word::USED];
    if !has_place(used, found, store.shape.places) {
        return standby_state::refuse(counters, Refusal::NoSessionPlace);
    }
    let rival = standby_row::rival(row, handle, found.unwrap_or(used as usize));
    if !standby_state::has_room(lookup, rival) {
        return standby_state::refuse(counters, Refusal::NoHandlePlace);
    }
    let place = open(&mut store, frame, session, found);
    let summary = summary_at(&store, place, max_lag);
    let answer = standby_state::bound(handle, summary);
    standby_state::rebound(counters, lookup, rival, answer, new_bound(handle, place))
}

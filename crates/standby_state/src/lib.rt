// The standby's settings, what a call answers, and what it does to the row of handles (standby.rs, `Replica`).
#![tactic(auto)]

ghost use Rattle.std.specs.Prelude.{◌≡◌};
ghost use Rattle.base_refusals.specs.Numbers.{number_of};
ghost use Rattle.standby_state.specs.Answers.{flat_of, of_flat, no_brief, blank_of, handing_up, is_refused, is_done, is_welcome, is_ack, is_nack, is_bound};
ghost use Rattle.standby_row.specs.Row.{released, own_place};
ghost use Rattle.standby_state.specs.Outcomes.{made_settings, room_for, spot_of, leaving, clearing, storing, rebinding, clears, row_after};

use base_refusals::Refusal;
use frame_fields::{CommitNumber, Epoch, Incarnation, Summary, kind};
use frame_reader::Span;
pub use standby_counters::Replica;
use standby_row::{Bound, Lookup};
use store_areas::Shape;

// What no call changes: the store's shape, this run of the standby (0 is taken as 1), the accepted lag, and whether a Commit hands up the lowest
// message on hand (it does if this is not 0): one walk over what its session has stored, which a caller that doesn't ask is spared.
#[repr(C)]
#[derive(Clone, Copy)]
pub struct Settings {
    pub shape: Shape,
    pub incarnation: Incarnation,
    pub max_lag: u64,
    pub tells_lowest: u8,
}

impl Settings {
    // With Commits that hand it up.
    pub fn new(shape: Shape, incarnation: Incarnation, max_lag: u64) -> Settings
        ensures { result ≡ made_settings shape incarnation max_lag }
    {
        Settings {
            shape,
            incarnation,
            max_lag,
            tells_lowest: 1,
        }
    }
}

// How the standby stands as a call begins: its settings, its counters, and what was found in the row.
#[derive(Clone, Copy)]
pub struct Standing {
    pub settings: Settings,
    pub counters: Replica,
    pub lookup: Lookup,
}

// What a call is lent: the row, which is only read; the store's words and bytes, the hold areas and the ends of their segments, which it may change. No rule is known of them: each call tests them.
#[derive(Drop)]
pub struct Areas<'a> {
    pub row: &'a [Bound],
    pub words: &'a mut [u64],
    pub bytes: &'a mut [u8],
    pub holds: &'a mut [u8],
    pub ends: &'a mut [u64],
}

// What a Bound says of a session; its texts are parts of the store's byte area.
#[repr(C)]
#[derive(Clone, Copy)]
pub struct BoundSummary {
    pub next_outgoing: u64,
    pub next_incoming: u64,
    // Whether there is a number in flight: there is if this is not 0. The summary crosses to C, which has no Option.
    pub has_in_flight: u8,
    pub in_flight: u64,
    pub created_at: Span,
    pub marks: Span,
    pub last_outgoing: u64,
}

impl From<Summary> for BoundSummary {
    ghost from_gives = { λ summary flat. flat ≡ flat_of summary };

    fn from(summary: Summary) -> BoundSummary {
        BoundSummary {
            next_outgoing: summary.next_outgoing,
            next_incoming: summary.next_incoming,
            has_in_flight: u8::from(summary.in_flight.is_some()),
            in_flight: summary.in_flight.unwrap_or(0),
            created_at: summary.created_at,
            marks: summary.marks,
            last_outgoing: summary.last_outgoing,
        }
    }
}

impl From<BoundSummary> for Summary {
    ghost from_gives = { λ flat summary. summary ≡ of_flat flat };

    fn from(flat: BoundSummary) -> Summary {
        Summary {
            next_outgoing: flat.next_outgoing,
            next_incoming: flat.next_incoming,
            in_flight: (flat.has_in_flight != 0).then_some(flat.in_flight),
            created_at: flat.created_at,
            marks: flat.marks,
            last_outgoing: flat.last_outgoing,
        }
    }
}

// A refusal by its number, or the frame that is answered by its kind: 2 Welcome, 5 Ack, 6 Nack, 7 Bound; both 0: done.
// It crosses to C as it stands, so these are numbers and no enum.
#[repr(C)]
#[derive(Clone, Copy)]
pub struct Answer {
    pub refusal: u8,
    pub kind: u8,
    pub handle: u32,
    pub epoch: Epoch,
    pub incarnation: Incarnation,
    pub commit_no: CommitNumber,
    pub reason: u8,
    pub summary: BoundSummary,
    // Beside the frame, which doesn't carry it: whether the call hands up the lowest message on hand (it does if this is not 0), and that number, 0 for none.
    pub has_lowest: u8,
    pub lowest: u64,
}

impl Answer {
    // The same frame or refusal, with the lowest message on hand if the call hands it up. Two fields of a copy are set: a new record
    // with `..self` would be made field by field, and a call's answer 16 ns later.
    pub fn handing_up(self, lowest: Option<u64>) -> Answer
        ensures { result ≡ handing_up lowest self }
    {
        let mut answer = self;
        answer.has_lowest = u8::from(lowest.is_some());
        answer.lowest = lowest.unwrap_or(0);
        answer
    }
}

// What a call does to the row: nothing, it frees every record, it puts a record at a place, or it frees one record, if there is another
// handle that has the session, and then puts one.
#[derive(Clone, Copy)]
pub enum RowAction {
    Leave,
    Clear,
    Store {
        at: usize,
        bound: Bound,
    },
    Rebind {
        freed: Option<usize>,
        at: usize,
        bound: Bound,
    },
}

// Frees the record at a place, if one is named.
fn release(row: &mut [Bound], freed: Option<usize>)
    ensures { row.new ≡ released freed row.old }
{
    if let Some(at) = freed {
        standby_row::release(row, at);
    }
}

impl RowAction {
    // Whether every record is freed.
    pub fn clears(self) -> bool
        ensures { result ≡ clears self }
    {
        matches!(self, RowAction::Clear)
    }

    // Does it to the row.
    pub fn apply(self, row: &mut [Bound])
        ensures { row.new ≡ row_after self row.old }
    {
        match self {
            RowAction::Leave => {}
            RowAction::Clear => standby_row::clear(row, 0),
            RowAction::Store { at, bound } => standby_row::insert(row, at, bound),
            RowAction::Rebind { freed, at, bound } => {
                release(row, freed);
                standby_row::insert(row, at, bound);
            }
        }
    }
}

// What a call by value gives: the counters after it, its answer, and what is to be done to the row.
#[derive(Clone, Copy)]
pub struct Outcome {
    pub replica: Replica,
    pub answer: Answer,
    pub action: RowAction,
}

fn no_summary() -> BoundSummary
    ensures { result ≡ no_brief }
{
    BoundSummary {
        next_outgoing: 0,
        next_incoming: 0,
        has_in_flight: 0,
        in_flight: 0,
        created_at: Span { at: 0, len: 0 },
        marks: Span { at: 0, len: 0 },
        last_outgoing: 0,
    }
}

fn blank(refusal: u8, kind: u8, handle: u32) -> Answer
    ensures { result ≡ blank_of refusal kind handle }
{
    Answer {
        refusal,
        kind,
        handle,
        epoch: Epoch(0),
        incarnation: Incarnation(0),
        commit_no: CommitNumber(0),
        reason: 0,
        summary: no_summary(),
        has_lowest: 0,
        lowest: 0,
    }
}

// A refusal by its number.
pub fn refused(number: u8) -> Answer
    ensures { result ≡ is_refused number }
{
    blank(number, 0, 0)
}

// Done, with no frame.
pub fn done() -> Answer
    ensures { result ≡ is_done }
{
    blank(0, 0, 0)
}

pub fn welcome(epoch: Epoch, incarnation: Incarnation) -> Answer
    ensures { result ≡ is_welcome epoch incarnation }
{
    Answer {
        epoch,
        incarnation,
        ..blank(0, kind::WELCOME, 0)
    }
}

pub fn ack(handle: u32, commit_no: CommitNumber) -> Answer
    ensures { result ≡ is_ack handle commit_no }
{
    Answer {
        commit_no,
        ..blank(0, kind::ACK, handle)
    }
}

// 1 StaleEpoch, 2 Diverged, 3 Lag, 4 Restarted.
// By its number: a NackReason would ask more of a caller.
pub fn nack(handle: u32, reason: u8) -> Answer
    ensures { result ≡ is_nack handle reason }
{
    Answer {
        reason,
        ..blank(0, kind::NACK, handle)
    }
}

pub fn bound(handle: u32, summary: BoundSummary) -> Answer
    ensures { result ≡ is_bound handle summary }
{
    Answer {
        summary,
        ..blank(0, kind::BOUND, handle)
    }
}

// The row stays as it is.
pub fn unchanged(counters: Replica, answer: Answer) -> Outcome
    ensures { result ≡ leaving counters answer }
{
    Outcome {
        replica: counters,
        answer,
        action: RowAction::Leave,
    }
}

// A refusal; the row stays as it is.
pub fn refuse(counters: Replica, refusal: Refusal) -> Outcome
    ensures { result ≡ leaving counters (is_refused (number_of refusal)) }
{
    unchanged(counters, refused(refusal.number()))
}

// Every record of the row is freed.
pub fn cleared(counters: Replica, answer: Answer) -> Outcome
    ensures { result ≡ clearing counters answer }
{
    Outcome {
        replica: counters,
        answer,
        action: RowAction::Clear,
    }
}

// The handle's own place; the row's length, where `insert` puts nothing, if it has none.
fn own_place(lookup: Lookup) -> usize
    ensures { result ≡ own_place lookup }
{
    match lookup.own {
        Some(found) => found.at,
        None => lookup.len,
    }
}

// A handle that is bound gets a record, at its own place.
pub fn stored(
    counters: Replica,
    lookup: Lookup,
    answer: Answer,
    handle: u32,
    bound: Bound,
) -> Outcome
    ensures { result ≡ storing counters lookup answer handle bound }
{
    Outcome {
        replica: counters,
        answer,
        action: RowAction::Store {
            at: own_place(lookup),
            bound: Bound {
                used: 1,
                handle,
                ..bound
            },
        },
    }
}

// Whether the row has a place for the handle: its own, a free one, or that of the record that is freed for it.
pub fn has_room(lookup: Lookup, freed: Option<usize>) -> bool
    ensures { result ≡ room_for lookup freed }
{
    lookup.own.is_some() | lookup.free.is_some() | freed.is_some()
}

// The handle's own place, or the first that is free once the record at `freed` is; the row's length, where `insert` puts nothing, if there is none.
fn place_for(lookup: Lookup, freed: Option<usize>) -> usize
    ensures { result ≡ spot_of lookup freed }
{
    let free = lookup.free.unwrap_or(lookup.len);
    match lookup.own {
        Some(own) => own.at,
        None => free.min(freed.unwrap_or(lookup.len)),
    }
}

// The handle gets a record, once the one at `freed` is freed.
pub fn rebound(
    counters: Replica,
    lookup: Lookup,
    freed: Option<usize>,
    answer: Answer,
    bound: Bound,
) -> Outcome
    ensures { result ≡ rebinding counters lookup freed answer bound }
{
    Outcome {
        replica: counters,
        answer,
        action: RowAction::Rebind {
            freed,
            at: place_for(lookup, freed),
            bound,
        },
    }
}

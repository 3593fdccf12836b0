// A session's log as it is read: its two slices, the room for messages, and the session's next outgoing number.
ghost use Rattle.std.specs.Prelude.{◌≡◌, ◌+◌, ◌-◌, ◌*◌, ◌^◌, ◌<◌, ◌≤◌, ◌++◌, MatchOption, length, take, drop};
ghost use Rattle.model_session.specs.Summary.{fnv_message, fnv_messages, fnv_start, numbered_from};
ghost use Rattle.store_log.specs.Log.{msg, Position, From, Reached, NextMessage, log_of, last_of};

use crate::{
    ENTRY_WORDS, FoundMessage, LENGTH, LogPosition, NUMBER, RingSpan, fnv, head, slot_at, span_of,
    tail,
};

// That the next number is 1 or more is asked where batches are cut; nothing that is read here needs it.
#[derive(Clone, Copy)]
pub struct Log<'a> {
    pub words: &'a [u64],
    pub bytes: &'a [u8],
    pub max: usize,
    pub next: u64,
    ghost long: { 2 + 2 * max ≤ length words.now },
}

// The messages from a position on, the oldest first.
#[derive(Drop)]
pub struct Messages<'a> {
    pub log: Log<'a>,
    pub position: LogPosition,
    ghost stands: { Position (length log.bytes.now) log.max log.next log.words.now log.bytes.now position.left position.dist },
}

// How far the walk from the newest message back has come: the slot before which the next entry is, how many messages were counted, the room that
// their bytes leave, and how far above low the number of the last one is, so that whether the next number is from low to below it is one comparison.
#[derive(Clone, Copy)]
struct Walked {
    slot: usize,
    left: usize,
    room: usize,
    reach: u64,
}

// The bytes of a message, as they stand in the ring: the second part is empty unless they wrap around its end.
#[derive(Clone, Copy)]
pub struct Parts<'a> {
    pub first: &'a [u8],
    pub rest: &'a [u8],
}

// The hash carried over a message's number, length and bytes.
fn hash_message(hash: u64, number: u64, parts: &Parts) -> u64
    ensures { result ≡ fnv_message hash (msg number (parts.now.first.now ++ parts.now.rest.now)) }
{
    let a = fnv::word(hash, number);
    let b = fnv::word(a, (parts.first.len() + parts.rest.len()) as u64);
    let c = fnv::bytes(b, parts.first);
    fnv::bytes(c, parts.rest)
}

// How far a number is above low: one below low is wrapped to above all others.
fn above(low: u64, number: u64) -> u64
    ensures is { low ≤ number → low + result ≡ number }
    ensures wrapped { number < low → 2 ^ 64 ≤ low + result }
{
    number.wrapping_sub(low)
}

impl<'a> Log<'a> {
    // Counts the next entry, if it is a message with a number from low.
    #[inline(always)]
    fn step_back(&self, low: u64, at: Walked) -> Option<Walked>
        requires le_low { 1 ≤ low }
        requires le_slot { 1 ≤ at.slot }
        requires slot_le_max { at.slot ≤ self.now.max }
        requires left_lt_max { at.left < self.now.max }
        requires reached { Reached (length self.now.bytes.now) self.now.max self.now.next low self.now.words.now self.now.bytes.now at.left at.room at.slot at.reach }
        ensures { MatchOption result (From (length self.now.bytes.now) self.now.max self.now.next low self.now.words.now self.now.bytes.now at.left (length self.now.bytes.now - at.room)) (λ next. (next.slot + 1 ≡ at.slot) × (next.left ≡ at.left + 1) × Reached (length self.now.bytes.now) self.now.max self.now.next low self.now.words.now self.now.bytes.now next.left next.room next.slot next.reach) }
    {
        let slot = at.slot - 1;
        let reach = above(low, self.words[NUMBER + ENTRY_WORDS * slot]);
        let len = self.words[LENGTH + ENTRY_WORDS * slot] as usize;
        if at.reach <= reach || at.room < len {
            return None;
        }
        Some(Walked {
            slot,
            left: at.left + 1,
            room: at.room - len,
            reach,
        })
    }

    // Walks back four entries a turn, as long as all four count and none is below slot `start`.
    fn walk_fours(&self, low: u64, start: usize, from: Walked) -> Walked
        requires le_low { 1 ≤ low }
        requires start_le_slot { start ≤ from.slot }
        requires slot_le_max { from.slot ≤ self.now.max }
        requires fits { from.left + from.slot ≤ self.now.max + start }
        requires reached { Reached (length self.now.bytes.now) self.now.max self.now.next low self.now.words.now self.now.bytes.now from.left from.room from.slot from.reach }
        ensures reached { Reached (length self.now.bytes.now) self.now.max self.now.next low self.now.words.now self.now.bytes.now result.left result.room result.slot result.reach }
        ensures within { start ≤ result.slot }
        ensures below { result.slot ≤ self.now.max }
        ensures together { result.left + result.slot ≡ from.left + from.slot }
    {
        let mut at = from;
        // A while: each turn gives the slot where the next one begins.
        while start + 4 <= at.slot {
            let Some(one) = self.step_back(low, at) else {
                return at;
            };
            let Some(two) = self.step_back(low, one) else {
                return one;
            };
            let Some(three) = self.step_back(low, two) else {
                return two;
            };
            let Some(four) = self.step_back(low, three) else {
                return three;
            };
            at = four;
        }
        at
    }

    // Walks back over the entries down to slot `start`, as far as they are messages with numbers from low. The ring is walked in two such runs: a test
    // for where it wraps would cost each turn as much again.
    fn walk_back(&self, low: u64, start: usize, from: Walked) -> Walked
        requires le_low { 1 ≤ low }
        requires start_le_slot { start ≤ from.slot }
        requires slot_le_max { from.slot ≤ self.now.max }
        requires fits { from.left + from.slot ≤ self.now.max + start }
        requires reached { Reached (length self.now.bytes.now) self.now.max self.now.next low self.now.words.now self.now.bytes.now from.left from.room from.slot from.reach }
        ensures reached { Reached (length self.now.bytes.now) self.now.max self.now.next low self.now.words.now self.now.bytes.now result.left result.room result.slot result.reach }
        ensures stopped { start < result.slot → From (length self.now.bytes.now) self.now.max self.now.next low self.now.words.now self.now.bytes.now result.left (length self.now.bytes.now - result.room) }
        ensures within { start ≤ result.slot }
        ensures together { result.left + result.slot ≡ from.left + from.slot }
    {
        let mut at = self.walk_fours(low, start, from);
        // A while, as in walk_fours.
        while start < at.slot {
            let Some(next) = self.step_back(low, at) else {
                return at;
            };
            at = next;
        }
        at
    }

    // The position where the messages with numbers from low begin, found from the newest back. Stored numbers are from 1 on: from 0 a discarded entry,
    // whose number is 0, would count.
    pub fn position_from(&self, low: u64) -> LogPosition
        requires { 1 ≤ low }
        ensures { From (length self.now.bytes.now) self.now.max self.now.next low self.now.words.now self.now.bytes.now result.left result.dist }
    {
        let max = self.max;
        if max == 0 || self.next <= low {
            return LogPosition { left: 0, dist: 0 };
        }
        let cap = self.bytes.len();
        let head = head(self.words, max);
        let newest = Walked {
            slot: head,
            left: 0,
            room: cap,
            reach: self.next - low,
        };
        let newer = self.walk_back(low, 0, newest);
        if newer.slot > 0 {
            return LogPosition {
                left: newer.left,
                dist: cap - newer.room,
            };
        }
        // The slot before slot 0 is the last one.
        let older = self.walk_back(low, head, Walked { slot: max, ..newer });
        LogPosition {
            left: older.left,
            dist: cap - older.room,
        }
    }

    // The next message at a position. A position may be at the end, so that one is left is asked apart.
    pub fn message_at(&self, position: LogPosition) -> FoundMessage
        requires position { Position (length self.now.bytes.now) self.now.max self.now.next self.now.words.now self.now.bytes.now position.left position.dist }
        requires le_left { 1 ≤ position.left }
        ensures { NextMessage (length self.now.bytes.now) self.now.max self.now.next self.now.words.now self.now.bytes.now position.left position.dist result.number result.span.start result.span.first result.span.rest result.next.left result.next.dist }
    {
        let words = self.words;
        let max = self.max;
        let cap = self.bytes.len();
        let slot = slot_at(head(words, max), max, position.left);
        let number = words[NUMBER + ENTRY_WORDS * slot];
        let len = words[LENGTH + ENTRY_WORDS * slot] as usize;
        FoundMessage {
            number,
            span: span_of(tail(words, cap), cap, position.dist, len),
            next: LogPosition {
                left: position.left - 1,
                dist: position.dist - len,
            },
        }
    }

    // The bytes that stand in a span of the ring.
    pub fn parts(&self, span: RingSpan) -> Parts<'a>
        requires first_in_bounds { span.start + span.first ≤ length self.now.bytes.now }
        requires rest_in_bounds { span.rest ≤ length self.now.bytes.now }
        ensures first { result.first.now ≡ take span.first (drop span.start self.now.bytes.now) }
        ensures rest { result.rest.now ≡ take span.rest self.now.bytes.now }
    {
        let end = span.start + span.first;
        Parts {
            first: &self.bytes[span.start..end],
            rest: &self.bytes[..span.rest],
        }
    }

    // The messages from a position on, the oldest first.
    pub fn messages_at(&self, position: LogPosition) -> Messages<'a>
        requires { Position (length self.now.bytes.now) self.now.max self.now.next self.now.words.now self.now.bytes.now position.left position.dist }
        ensures log { result.log ≡ self.now }
        ensures position { result.position ≡ position }
    {
        Messages {
            log: *self,
            position,
        }
    }

    // The hash of the messages with numbers from low, the oldest first.
    pub fn hash_from(&self, low: u64) -> u64
        requires { 1 ≤ low }
        ensures { result ≡ fnv_messages fnv_start (numbered_from low (log_of (length self.now.bytes.now) self.now.max self.now.next self.now.words.now self.now.bytes.now)) }
    {
        let position = self.position_from(low);
        let mut hash = fnv::START;
        for found in self.messages_at(position) {
            hash = hash_message(hash, found.number, &self.parts(found.span));
        }
        hash
    }

    // last_outgoing over n.
    pub fn last_outgoing(&self, n: u64) -> u64
        ensures { result ≡ last_of self.now.next n (log_of (length self.now.bytes.now) self.now.max self.now.next self.now.words.now self.now.bytes.now) }
    {
        if n == 0 || self.next == 1 {
            return 0;
        }
        self.hash_from(self.next.saturating_sub(n).max(1))
    }
}

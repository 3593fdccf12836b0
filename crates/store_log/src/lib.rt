// One session's log of messages, in two lent slices: `words` (a head, a tail and a ring of entries) and `bytes` (a ring).
#![tactic(auto)]

pub mod fnv;
pub mod log;
pub mod messages;

ghost use Rattle.std.specs.Prelude.{◌≡◌, ℕ, ◌+◌, ◌-◌, ◌*◌, ◌<◌, ◌≤◌, List, [], ◌∷◌, ◌++◌, length, take, drop, slice_index};
ghost use Rattle.model_session.specs.Session.{keep};
ghost use Rattle.model_session.specs.Summary.{fnv_message, fnv_messages, fnv_start, numbered_from};
ghost use Rattle.store_log.specs.Log.{before, slot_at, Spanned, Position, From, NextMessage, msg, unrolled, head_of, tail_of, newest, entry, log_of, last_of};

// The words of a log: the slot that the next entry goes to, the byte ring's tail, then each slot's entry.
pub const HEAD: usize = 0;

pub const TAIL: usize = 1;

// The number and the length of slot 0's entry; those of each slot after it are two words on.
pub const NUMBER: usize = 2;

pub const LENGTH: usize = 3;

pub const ENTRY_WORDS: usize = 2;

// Writes msg into the ring from its tail at, and returns the new tail.
pub fn ring_write(bytes: &mut [u8], at: usize, msg: &[u8]) -> usize
    requires at_in_bounds { at ≤ length bytes.old }
    requires msg_in_bounds { length msg.now ≤ length bytes.old }
    ensures within { result ≤ length bytes.old }
    ensures rolled { unrolled result bytes.new ≡ drop (length msg.now) (unrolled at bytes.old) ++ msg.now }
{
    let room = bytes.len() - at;
    if msg.len() <= room {
        return base_bytes::copy(msg, bytes, at);
    }
    base_bytes::copy(&msg[..room], bytes, at);
    base_bytes::copy(&msg[room..], bytes, 0)
}

// The slot that the next entry goes to; it asks for the two words alone, not for a whole log.
// A ring of no slots has none, so each asks for one.
pub fn head(words: &[u64], max: usize) -> usize
    requires in_bounds { 2 ≤ length words.now }
    requires max_nonzero { 0 < max }
    ensures within { result < max }
    ensures is { result ≡ head_of max words.now }
{
    let h = words[HEAD] as usize;
    if h < max { h } else { 0 }
}

// The byte ring's tail.
pub fn tail(words: &[u64], cap: usize) -> usize
    requires { 2 ≤ length words.now }
    ensures within { result ≤ cap }
    ensures is { result ≡ tail_of cap words.now }
{
    let t = words[TAIL] as usize;
    if t <= cap { t } else { 0 }
}

// Puts an entry in front of the newest, with the ring's new tail.
// This, discard_stale, record and clear take the words and the room: in a struct over `&mut` words each would have to say that they stay the
// same ones, a clause for the one that goes.
fn put_entry(words: &mut [u64], max: usize, seq: u64, len: usize, end: usize)
    requires max_nonzero { 0 < max }
    requires max_in_bounds { 2 + 2 * max ≤ length words.old }
    ensures put { newest max words.new ≡ entry seq len ∷ take (max - 1) (newest max words.old) }
    ensures end { slice_index words.new 1 ≡ end }
{
    let slot = head(words, max);
    words[HEAD] = (slot + 1) as u64;
    words[TAIL] = end as u64;
    words[NUMBER + ENTRY_WORDS * slot] = seq;
    words[LENGTH + ENTRY_WORDS * slot] = len as u64;
}

// The slot before `slot` in the ring of entries.
pub fn slot_before(slot: usize, max: usize) -> usize
    requires { slot < max }
    ensures within { result < max }
    ensures is { result ≡ before max slot }
{
    if slot == 0 { max - 1 } else { slot - 1 }
}

// The slot of the newest entry.
pub fn newest_slot(words: &[u64], max: usize) -> usize
    requires in_bounds { 2 ≤ length words.now }
    requires max_nonzero { 0 < max }
    ensures within { result < max }
    ensures is { result ≡ before max (head_of max words.now) }
{
    slot_before(head(words, max), max)
}

// Discards a newest entry whose number is not below `next`, so that it cannot count again once next outgoing rises. In an
// area that the operations left there is none, and it writes nothing.
pub fn discard_stale(words: &mut [u64], max: usize, next: u64)
    requires { 2 + 2 * max ≤ length words.old }
    ensures { (C later : ℕ) (b : List ℕ) → next ≤ later → log_of C max later words.new b ≡ log_of C max next words.old b }
{
    if max == 0 {
        return;
    }
    let slot = newest_slot(words, max);
    if next <= words[NUMBER + ENTRY_WORDS * slot] {
        words[NUMBER + ENTRY_WORDS * slot] = 0;
    }
}

// Records a message: the next number is seq, and seq + 1 after it.
pub fn record(words: &mut [u64], bytes: &mut [u8], max: usize, seq: u64, text: &[u8])
    requires max_in_bounds { 2 + 2 * max ≤ length words.old }
    requires le_seq { 1 ≤ seq }
    ensures { log_of (length bytes.old) max (seq + 1) words.new bytes.new ≡ keep (length bytes.old) max (msg seq text.now) (log_of (length bytes.old) max seq words.old bytes.old) }
{
    let cap = bytes.len();
    if max == 0 {
        return;
    }
    if cap < text.len() {
        discard_stale(words, max, seq);
        return;
    }
    let at = tail(words, cap);
    let end = ring_write(bytes, at, text);
    put_entry(words, max, seq, text.len(), end);
}

// Empties the log.
pub fn clear(words: &mut [u64], max: usize)
    requires { 2 + 2 * max ≤ length words.old }
    ensures { (C next : ℕ) (b : List ℕ) → log_of C max next words.new b ≡ [] }
{
    if max == 0 {
        return;
    }
    let slot = newest_slot(words, max);
    words[NUMBER + ENTRY_WORDS * slot] = 0;
}

// A position in the log: how many messages, the newest, are still to be read, and their bytes.
#[derive(Clone, Copy)]
pub struct LogPosition {
    pub left: usize,
    pub dist: usize,
}

// The slot of the i-th newest entry.
pub fn slot_at(head: usize, max: usize, i: usize) -> usize
    requires head_lt_max { head < max }
    requires le_i { 1 ≤ i }
    requires i_le_max { i ≤ max }
    ensures within { result < max }
    ensures is { result ≡ slot_at max head i }
{
    if i <= head {
        head - i
    } else {
        max - (i - head)
    }
}

// Where bytes of the ring stand: `first` from `start`, then `rest` from the ring's start.
#[derive(Clone, Copy)]
pub struct RingSpan {
    pub start: usize,
    pub first: usize,
    pub rest: usize,
}

// The len bytes that begin dist bytes before the tail.
pub fn span_of(tail: usize, cap: usize, dist: usize, len: usize) -> RingSpan
    requires tail_le_cap { tail ≤ cap }
    requires dist_le_cap { dist ≤ cap }
    requires len_le_dist { len ≤ dist }
    ensures { Spanned tail cap dist len result.start result.first result.rest }
{
    if dist <= tail {
        return RingSpan {
            start: tail - dist,
            first: len,
            rest: 0,
        };
    }
    let room = dist - tail;
    let start = cap - room;
    if len <= room {
        return RingSpan {
            start,
            first: len,
            rest: 0,
        };
    }
    RingSpan {
        start,
        first: room,
        rest: len - room,
    }
}

// A message in the ring: its number, where its bytes stand, and the position after it.
#[derive(Clone, Copy)]
pub struct FoundMessage {
    pub number: u64,
    pub span: RingSpan,
    pub next: LogPosition,
}

// Several resend ranges together: the stored messages of a session that lie in some range, with the set of ranges each serves.
#![tactic(auto)]

ghost use Rattle.std.specs.Prelude.{◌≡◌, cond, ℕ, min, ◌+◌, ◌-◌, ◌*◌, ◌/◌, ◌≤◌, ◌<◌, length, leb};
ghost use Rattle.store_sessions.specs.Answers.{PositionAt, rest_at};
ghost use Rattle.model_session.specs.Session.{stored_bytes};
ghost use Rattle.model_resend.specs.Resend.{lies, is_range, are_ranges, set_of, listed};
ghost use Rattle.store_resend.specs.Passes.{LogAt, Begun, Carries, PassesOver};
ghost use Rattle.store_resend.specs.Ranges.{range_of, range_at, ranges_of, stays, lowest_of, Keeps, Serves, Counts, Adds, entered, HasRoom, Fills, Lists, listed_of};
ghost use Rattle.store_resend.specs.Standing.{position_prop};
ghost use Rattle.store_areas.specs.Areas.{used_of};

use base_refusals::Refusal;
use store_areas::{Shape, View};
use store_log::LogPosition;
use store_log::log::Log;
use store_sessions::Message;

// The answer as programs in C get it: 25, 35 or 36, else 0, how many messages are listed, and their bytes.
#[repr(C)]
#[derive(Clone, Copy)]
pub struct Listed {
    pub refusal: u8,
    pub length: usize,
    pub bytes: usize,
}

impl Listed {
    // The most ranges of one request.
    pub const MAX_RANGES: usize = 64;
    // The words of an entry.
    pub const ENTRY_WORDS: usize = 6;

    pub fn of(answer: Result<Tally, Refusal>) -> Listed
        ensures { result ≡ listed_of answer }
    {
        match answer {
            Ok(tally) => Listed {
                refusal: 0,
                length: tally.length,
                bytes: tally.bytes,
            },
            Err(refusal) => Listed {
                refusal: refusal.number(),
                length: 0,
                bytes: 0,
            },
        }
    }
}

// The set of ranges that every number from base to until lies in.
#[derive(Clone, Copy)]
pub struct Kept {
    pub base: u64,
    pub until: u64,
    pub set: u64,
}

impl Kept {
    // The set of no number, before the first message. With an Option of a set in its place a message took 6.5 to 7.3 ns in place of 5.9 to 6.3
    // (bar: 5 ns; both measured beside other work).
    const NONE: Kept = Kept {
        base: 1,
        until: 0,
        set: 0,
    };
}

// How many messages are listed, and their bytes.
#[derive(Clone, Copy)]
pub struct Tally {
    pub length: usize,
    pub bytes: usize,
}

// A range of numbers: its first and its last, 0 for all to the end, as the request has it.
#[derive(Clone, Copy)]
pub struct Range {
    pub first: u64,
    pub last: u64,
}

impl Range {
    // Whether a number lies in it.
    fn holds(self, n: u64) -> bool
        ensures { result ≡ lies (range_of self) n }
    {
        (self.first <= n) & ((self.last == 0) | (n <= self.last))
    }

    // Up to which number the answer for n stays.
    fn stays_until(self, n: u64) -> u64
        ensures { result ≡ stays (range_of self) n }
    {
        if n < self.first {
            return self.first - 1;
        }
        if self.last == 0 {
            return u64::MAX;
        }
        if n <= self.last { self.last } else { u64::MAX }
    }

    // Whether it is one.
    fn is_range(self) -> bool
        ensures { result ≡ is_range (range_of self) }
    {
        (1 <= self.first) & ((self.last == 0) | (self.first <= self.last))
    }
}

// A set with one range more in front.
fn with_bit(set: u64, bit: bool) -> u64
    requires { set < 9223372036854775808 }
    ensures { result ≡ cond bit 1 0 + 2 * set }
{
    if bit { 2 * set + 1 } else { 2 * set }
}

// The ranges of a request: range j stands in words 2 j and 2 j + 1. A set of them fits a word.
#[derive(Clone, Copy)]
struct Ranges<'a> {
    words: &'a [u64],
    ghost few: { length words.now / 2 ≤ 64 },
}

impl Ranges<'_> {
    fn count(&self) -> usize
        ensures { result ≡ length self.now.words.now / 2 }
    {
        self.words.len() / 2
    }

    fn at(&self, j: usize) -> Range
        requires { j < length self.now.words.now / 2 }
        ensures { range_of result ≡ range_at self.now.words.now j }
    {
        Range {
            first: self.words[2 * j],
            last: self.words[2 * j + 1],
        }
    }

    // Whether all are ranges.
    fn are_ranges(&self) -> bool
        ensures { result ≡ are_ranges (ranges_of self.now.words.now) }
    {
        (0..self.count()).all(|j| self.at(j).is_range())
    }

    // The set of n, and up to which number it stays.
    fn set_of(&self, n: u64) -> Kept
        ensures { Serves (ranges_of self.now.words.now) n result }
    {
        let mut set: u64 = 0;
        let mut until: u64 = u64::MAX;
        for j in (0..self.count()).rev() {
            let range = self.at(j);
            set = with_bit(set, range.holds(n));
            until = range.stays_until(n).min(until);
        }
        Kept {
            base: n,
            until,
            set,
        }
    }

    // The lowest first number of the ranges.
    fn lowest_first(&self) -> u64
        ensures { result ≡ lowest_of (ranges_of self.now.words.now) }
    {
        let mut low: u64 = u64::MAX;
        for j in (0..self.count()).rev() {
            low = self.at(j).first.min(low);
        }
        low
    }

    // The set of n: the one that is kept, if it serves.
    fn kept_for(&self, kept: Kept, n: u64) -> Kept
        requires { Keeps (ranges_of self.now.words.now) kept }
        ensures { Serves (ranges_of self.now.words.now) n result }
    {
        if kept.base <= n {
            if n <= kept.until {
                return kept;
            }
        }
        self.set_of(n)
    }
}

impl Tally {
    // Counts a message of `size` bytes, unless its set is empty.
    fn counted(self, set: u64, size: usize) -> Tally
        requires length_bound { self.length + 1 < 18446744073709551616 }
        requires size_bound { self.bytes + size < 18446744073709551616 }
        ensures { Adds set size self result }
    {
        if set == 0 {
            return self;
        }
        Tally {
            length: self.length + 1,
            bytes: self.bytes + size,
        }
    }
}

// The messages of a session that are still to be read: those from a place in its log on.
#[derive(Clone, Copy)]
struct Rest<'a> {
    view: &'a View<'a>,
    place: usize,
    from: LogPosition,
    ghost used: { place < used_of view.now.words.now },
    ghost stands: { PositionAt view.now.shape view.now.words.now view.now.bytes.now place from.left from.dist } by { position_prop view.now.shape view.now.words.now view.now.bytes.now place from.left from.dist },
    ghost left_fits: { from.left < 18446744073709551616 },
    ghost dist_fits: { from.dist < 18446744073709551616 },
}

impl<'a> Rest<'a> {
    // The log that they stand in.
    fn log(&self) -> Log<'a>
        ensures { LogAt self.now.view.now.shape self.now.view.now.words.now self.now.view.now.bytes.now self.now.place result }
    {
        self.view.place(self.place).log()
    }
}

// Counts the messages still to be read that lie in some range.
fn count(rest: &Rest, ranges: &Ranges) -> Tally
    ensures { Counts (ranges_of ranges.now.words.now) (rest_at rest.now.view.now.shape rest.now.view.now.words.now rest.now.view.now.bytes.now rest.now.place rest.now.from.left) rest.now.from.dist result }
{
    let log = rest.log();
    let mut tally = Tally {
        length: 0,
        bytes: 0,
    };
    let mut kept = Kept::NONE;
    for found in log.messages_at(rest.from) {
        kept = ranges.kept_for(kept, found.number);
        tally = tally.counted(kept.set, found.span.first + found.span.rest);
    }
    tally
}

// Whether so many entries are enough for the list: the messages still to be read are counted only where they are more.
fn has_room(rest: &Rest, ranges: &Ranges, room: usize) -> bool
    ensures { result ≡ leb (length (listed (ranges_of ranges.now.words.now) (rest_at rest.now.view.now.shape rest.now.view.now.words.now rest.now.view.now.bytes.now rest.now.place rest.now.from.left))) room }
{
    if rest.from.left <= room {
        return true;
    }
    let t = count(rest, ranges);
    t.length <= room
}

// Writes entry k, unless the set is empty.
fn enter(entries: &mut [u64], k: usize, set: u64, m: Message)
    requires { HasRoom set k entries.old }
    ensures { entries.new ≡ entered k set m entries.old }
{
    if set == 0 {
        return;
    }
    let at = Listed::ENTRY_WORDS * k;
    entries[at] = m.number;
    entries[at + 1] = set;
    entries[at + 2] = m.first.at as u64;
    entries[at + 3] = m.first.len as u64;
    entries[at + 4] = m.second.at as u64;
    entries[at + 5] = m.second.len as u64;
}

// How far a listing has come: where the messages still to be read begin, and what is listed.
#[derive(Clone, Copy)]
struct Progress {
    from: LogPosition,
    tally: Tally,
}

// The same without the bytes listed, which are those that were read: counted one by one, a message took 8.5 ns in place of 5.9 (bar: 5 ns; both in
// plain Rust of the same text, beside other work).
#[derive(Clone, Copy)]
struct Followed {
    from: LogPosition,
    length: usize,
}

// Passes over messages that lie in no range, as long as that stays.
fn pass_over(rest: &Rest, kept: Kept) -> LogPosition
    requires { kept.set ≡ 0 }
    ensures { PassesOver rest.now.view.now.shape rest.now.view.now.words.now rest.now.view.now.bytes.now rest.now.place kept rest.now.from.left rest.now.from.dist result.left result.dist }
{
    let log = rest.log();
    let mut from = rest.from;
    for found in log.messages_at(rest.from) {
        if found.number < kept.base || kept.until < found.number {
            break;
        }
        from = found.next;
    }
    from
}

// Writes the entries of messages that one set serves, as long as it stays.
fn follow(rest: &Rest, kept: Kept, tally: Tally, entries: &mut [u64]) -> Followed
    requires begun { Begun rest.now.view.now.shape rest.now.view.now.words.now rest.now.view.now.bytes.now rest.now.place rest.now.from.left rest.now.from.dist tally kept entries.old }
    requires some { kept.set ≡ 0 → ⊥ }
    ensures { Carries rest.now.view.now.shape rest.now.view.now.words.now rest.now.view.now.bytes.now rest.now.place kept rest.now.from.left rest.now.from.dist tally entries.old result.from.left result.from.dist (record { length = result.length; bytes = tally.bytes + (rest.now.from.dist - result.from.dist) }) entries.new }
{
    let mut from = rest.from;
    let mut length = tally.length;
    // A while: an entry says where a message stands in the whole byte area, which the log's own iterator doesn't know.
    while 0 < from.left {
        let m = store_sessions::message_at(rest.view, rest.place, from);
        if m.number < kept.base {
            return Followed { from, length };
        }
        if kept.until < m.number {
            return Followed { from, length };
        }
        from = m.next;
        enter(entries, length, kept.set, m);
        length += 1;
    }
    Followed { from, length }
}

// Goes on with a listing as long as a set stays.
fn go_on(rest: &Rest, kept: Kept, tally: Tally, entries: &mut [u64]) -> Progress
    requires { Begun rest.now.view.now.shape rest.now.view.now.words.now rest.now.view.now.bytes.now rest.now.place rest.now.from.left rest.now.from.dist tally kept entries.old }
    ensures { Carries rest.now.view.now.shape rest.now.view.now.words.now rest.now.view.now.bytes.now rest.now.place kept rest.now.from.left rest.now.from.dist tally entries.old result.from.left result.from.dist result.tally entries.new }
{
    if kept.set == 0 {
        return Progress {
            from: pass_over(rest, kept),
            tally,
        };
    }
    let before = tally.bytes;
    let f = follow(rest, kept, tally, entries);
    Progress {
        from: f.from,
        tally: Tally {
            length: f.length,
            bytes: before + (rest.from.dist - f.from.dist),
        },
    }
}

// Writes the entries of the messages still to be read that lie in some range, and counts them.
fn fill(rest: &Rest, ranges: &Ranges, entries: &mut [u64]) -> Tally
    requires { 6 * length (listed (ranges_of ranges.now.words.now) (rest_at rest.now.view.now.shape rest.now.view.now.words.now rest.now.view.now.bytes.now rest.now.place rest.now.from.left)) ≤ length entries.old }
    ensures { Fills (ranges_of ranges.now.words.now) rest.now.view.now.bytes.now (rest_at rest.now.view.now.shape rest.now.view.now.words.now rest.now.view.now.bytes.now rest.now.place rest.now.from.left) rest.now.from.dist entries.old result entries.new }
{
    let mut from = rest.from;
    let mut tally = Tally {
        length: 0,
        bytes: 0,
    };
    let mut kept = Kept::NONE;
    // A while, since go_on passes over several messages in one turn: with a `for` over them all in its place a message took 8.9 ns in place of 6.1
    // (bar: 5 ns; both in plain Rust of the same text, beside other work).
    while 0 < from.left {
        let m = store_sessions::message_at(rest.view, rest.place, from);
        kept = ranges.kept_for(kept, m.number);
        let size = m.first.len as usize + m.second.len as usize;
        let next = tally.counted(kept.set, size);
        let behind = Rest {
            view: rest.view,
            place: rest.place,
            from: m.next,
        };
        enter(entries, tally.length, kept.set, m);
        let p = go_on(&behind, kept, next, entries);
        from = p.from;
        tally = p.tally;
    }
    tally
}

// Lists the stored messages of the session at a place that lie in some range: of each its number and the set of ranges it serves.
// The areas and the shape come apart, as C lends them.
pub fn list(
    words: &[u64],
    bytes: &[u8],
    shape: Shape,
    place: usize,
    ranges: &[u64],
    entries: &mut [u64],
) -> Result<Tally, Refusal>
    ensures { Lists shape words.now bytes.now place ranges.now entries.old (listed_of result) entries.new }
{
    let view = View::with_place(shape, words, bytes, place)?;
    if ranges.len() % 2 != 0 {
        return Err(Refusal::RulesBroken);
    }
    if Listed::MAX_RANGES < ranges.len() / 2 {
        return Err(Refusal::BadRanges);
    }
    let asked = Ranges { words: ranges };
    if !asked.are_ranges() {
        return Err(Refusal::BadRanges);
    }
    let rest = Rest {
        view: &view,
        place,
        from: store_sessions::messages_from(&view, place, asked.lowest_first()),
    };
    if !has_room(&rest, &asked, entries.len() / Listed::ENTRY_WORDS) {
        return Err(Refusal::TooFewEntries);
    }
    let t = fill(&rest, &asked, entries);
    Ok(t)
}

// Time stamps, marks and keys.
#![tactic(auto)]

ghost use Rattle.std.specs.Prelude.{◌≡◌, ◌-◌, ◌≤◌, ◌<◌, length, drop};
ghost use Rattle.model_text.specs.Printable.{is_printable_byte, all_printable, is_printable, is_marks, is_key};
ghost use Rattle.model_text.specs.Calendar.{is_leap, month_days};
ghost use Rattle.model_text.specs.Stamp.{is_digit, pair_number, is_pair, matches, date, clock, digits, fraction, day_exists, is_stamp, takes_stamp};
ghost use Rattle.model_text.specs.Version.{first, latest};
ghost use Rattle.frame_stamp.specs.Places.{slice_at};
ghost use Rattle.frame_stamp.specs.Versions.{version_of, protocol_of, protocol};

pub mod protocol;

use base_refusals::Refusal;
pub use protocol::Protocol;

// The longest stamp that every version takes.
pub const LONGEST_SHORT: usize = 21;

impl Protocol {
    // What is spoken until a Hello is accepted.
    pub const FIRST: u16 = 1;

    // It takes every stamp that the store keeps.
    pub const LATEST: u16 = 2;

    // A version that is handed in: 11 for one that there isn't.
    #[tactic(auto, unfolding(model_text::specs::Version::is_version))]
    pub fn new(version: u16) -> Result<Protocol, Refusal>
        ensures { protocol_of result ≡ protocol version }
    {
        if version != Self::FIRST && version != Self::LATEST {
            return Err(Refusal::BadVersion);
        }
        Ok(Protocol { version })
    }

    #[tactic(auto, unfolding(model_text::specs::Version::is_version))]
    pub fn first() -> Protocol
        ensures { result.version ≡ first }
    {
        Protocol {
            version: Self::FIRST,
        }
    }

    #[tactic(auto, unfolding(model_text::specs::Version::is_version))]
    pub fn latest() -> Protocol
        ensures { result.version ≡ latest }
    {
        Protocol {
            version: Self::LATEST,
        }
    }

    // A connection's version as the counters have it: a byte, 0 for the first, every other value for the latest.
    pub fn of_byte(byte: u8) -> Protocol
        ensures { result.version ≡ version_of byte }
    {
        if byte == 0 {
            return Self::first();
        }
        Self::latest()
    }

    // The number.
    pub fn number(self) -> u16
        ensures { result ≡ self.version }
    {
        self.version
    }

    // And as the counters have it.
    #[tactic(auto, unfolding(model_text::specs::Version::is_version))]
    pub fn byte(self) -> u8
        ensures { version_of result ≡ self.version }
    {
        if self.version == Self::LATEST {
            return 1;
        }
        0
    }
}

// 20 to 7E, hexadecimal.
#[tactic(auto, unfolding(model_text::specs::Printable::is_printable_byte))]
fn is_plain(b: u8) -> bool
    ensures { result ≡ is_printable_byte b }
{
    (0x20..=0x7E).contains(&b)
}

// All of s is printable ASCII. Each byte is tested, so that many are tested at a time: with `all` 12 bytes take 1.2 times as long, 32 bytes 4 times.
fn all_plain(s: &[u8]) -> bool
    ensures { result ≡ all_printable s.now }
{
    let mut ok = true;
    for byte in s {
        ok &= is_plain(*byte);
    }
    ok
}

// s is lo to hi bytes of printable ASCII.
#[tactic(auto, unfolding(model_text::specs::Printable::is_printable))]
pub fn is_printable(s: &[u8], lo: usize, hi: usize) -> bool
    ensures { result ≡ is_printable lo hi s.now }
{
    (lo..=hi).contains(&s.len()) && all_plain(s)
}

// s is a session's marks.
#[tactic(auto, unfolding(model_text::specs::Printable::is_marks))]
pub fn is_marks(s: &[u8]) -> bool
    ensures { result ≡ is_marks s.now }
{
    is_printable(s, 0, 64)
}

// These four are a session's key; they come from four places, so a struct of them would be made for this call alone.
#[tactic(auto, unfolding(model_text::specs::Printable::is_key))]
pub fn is_key(begin: &[u8], sender: &[u8], target: &[u8], suffix: &[u8]) -> bool
    ensures { result ≡ is_key begin.now sender.now target.now suffix.now }
{
    is_printable(begin, 1, 32)
        & is_printable(sender, 1, 32)
        & is_printable(target, 1, 32)
        & is_printable(suffix, 0, 32)
}

// 0 to 9.
#[tactic(auto, unfolding(model_text::specs::Stamp::is_digit))]
pub fn is_digit(b: u8) -> bool
    ensures { result ≡ is_digit b }
{
    b.is_ascii_digit()
}

// The number of two digits. A byte below the digits counts as 0, so that nothing is asked of it.
pub fn pair_number(a: u8, b: u8) -> u32
    ensures is { result ≡ pair_number a b }
    ensures small { result ≤ 2277 }
{
    u32::from(a.saturating_sub(b'0')) * 10 + u32::from(b.saturating_sub(b'0'))
}

// Two digits, of a number from lo to hi.
#[tactic(auto, unfolding(model_text::specs::Stamp::is_pair))]
fn is_pair(lo: u32, hi: u32, a: u8, b: u8) -> bool
    ensures { result ≡ is_pair lo hi a b }
{
    let n = pair_number(a, b);
    is_digit(a) & is_digit(b) & (lo <= n) & (n <= hi)
}

// YYYYMMDD at 0. How many bytes there are is told by is_stamp's match: as arrays they would be cut out of the slice first.
pub fn is_date(s: &[u8]) -> bool
    requires { 17 ≤ length s.now }
    ensures { result ≡ matches date (slice_at s.now 0 8) }
{
    is_digit(s[0])
        & is_digit(s[1])
        & is_digit(s[2])
        & is_digit(s[3])
        & is_pair(1, 12, s[4], s[5])
        & is_pair(1, 31, s[6], s[7])
}

// -HH:MM:SS at 8.
pub fn is_clock(s: &[u8]) -> bool
    requires { 17 ≤ length s.now }
    ensures { result ≡ matches clock (slice_at s.now 8 9) }
{
    (s[8] == b'-')
        & is_pair(0, 23, s[9], s[10])
        & (s[11] == b':')
        & is_pair(0, 59, s[12], s[13])
        & (s[14] == b':')
        & is_pair(0, 60, s[15], s[16])
}

// All of s are digits.
fn all_digits(s: &[u8]) -> bool
    ensures { result ≡ matches (digits (length s.now)) s.now }
{
    let mut ok = true;
    for byte in s {
        ok &= is_digit(*byte);
    }
    ok
}

// A point and digits from 17 up to the end.
fn is_fraction(s: &[u8]) -> bool
    requires { 18 < length s.now }
    ensures { result ≡ matches (fraction (length s.now - 17 - 1)) (drop 17 s.now) }
{
    (s[17] == b'.') & all_digits(&s[18..])
}

// The same of a stamp with three digits: one by one they take 2 ns less than in a loop.
fn is_millis(s: &[u8]) -> bool
    requires { length s.now ≡ 21 }
    ensures { result ≡ matches (fraction (length s.now - 17 - 1)) (drop 17 s.now) }
{
    (s[17] == b'.') & is_digit(s[18]) & is_digit(s[19]) & is_digit(s[20])
}

// Divisible by 4, and where it is divisible by 100 also by 400.
#[tactic(auto, unfolding(model_text::specs::Calendar::is_leap))]
fn is_leap(y: u32) -> bool
    ensures { result ≡ is_leap y }
{
    (y % 4 == 0) & ((y % 100 != 0) | (y % 400 == 0))
}

// The days of month m in year y.
#[tactic(auto, unfolding(model_text::specs::Calendar::month_days))]
pub fn month_days(y: u32, m: u32) -> u32
    ensures { result ≡ month_days y m }
{
    match m {
        2 if is_leap(y) => 29,
        2 => 28,
        4 | 6 | 9 | 11 => 30,
        _ => 31,
    }
}

// The day at 6 exists in the month at 4 of the year at 0; no month is shorter than 28 days.
pub fn is_day(s: &[u8]) -> bool
    requires { 17 ≤ length s.now }
    ensures { result ≡ day_exists s.now }
{
    let day = pair_number(s[6], s[7]);
    if day <= 28 {
        return true;
    }
    let year = pair_number(s[0], s[1]) * 100 + pair_number(s[2], s[3]);
    let month = pair_number(s[4], s[5]);
    day <= month_days(year, month)
}

// s is a stamp that the store keeps: YYYYMMDD-HH:MM:SS, or that with `.` and 3, 6, 9 or 12 digits, of a day that exists.
pub fn is_stamp(s: &[u8]) -> bool
    ensures { result ≡ is_stamp s.now }
{
    match s.len() {
        17 => is_date(s) & is_clock(s) & is_day(s),
        21 => is_date(s) & is_clock(s) & is_millis(s) & is_day(s),
        24 | 27 | 30 => is_date(s) & is_clock(s) & is_fraction(s) & is_day(s),
        _ => false,
    }
}

// s is a stamp that reading takes in this version: the first takes none that is longer than .sss.
// Not inlined: most frames have none, and are read the slower the more stands in the way of what they have.
#[inline(never)]
pub fn takes_stamp(protocol: Protocol, s: &[u8]) -> bool
    ensures { result ≡ takes_stamp protocol.version s.now }
{
    if protocol.version == Protocol::LATEST {
        return is_stamp(s);
    }
    s.len() <= LONGEST_SHORT && is_stamp(s)
}

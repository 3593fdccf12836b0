// Stamps as numbers: whole milliseconds since 1 January 1970 and the exact remainder in picoseconds; and back, with the fewest of 0, 3, 6, 9 and 12 digits that
// lose nothing.
#![tactic(auto)]

ghost use Rattle.std.specs.Prelude.{ℕ, ◌≡◌, ◌+◌, ◌-◌, ◌≤◌, ◌<◌, [], ◌∷◌, length, drop, get_or};
ghost use Rattle.model_text.specs.Stamp.{year_of};
ghost use Rattle.model_times.specs.Times.{InCalendar, three_at, time_in, two, three, full_text, shortest_length, millis_of, picos_of, time_at, end_of_years, read, write, lent, area_after};
ghost use Rattle.times_stamp.specs.Answers.{time_of, read_of, told_of, told};

use base_refusals::Refusal;
use frame_stamp::{is_stamp, pair_number};
use times_calendar::{date_of, days_before};

// Years before this one have no number.
const FIRST_YEAR: u32 = 1970;

// The days before it.
const FIRST_DAY: u64 = 719_528;

// Nor has a second 60.
const SECONDS: u32 = 60;

// From here on numbers have no stamp: the milliseconds to the end of 31 December 9999, and the picoseconds of one.
const END: u64 = 253_402_300_800_000;

const PICOS: u64 = 1_000_000_000;

// A stamp's number: the remainder is in picoseconds.
#[derive(Clone, Copy)]
pub struct Moment {
    pub millis: u64,
    pub picos: u64,
}

// What a stamp says; behind the second four groups of three digits.
#[derive(Clone, Copy)]
pub struct Time {
    pub year: u32,
    pub month: u32,
    pub day: u32,
    pub hour: u32,
    pub minute: u32,
    pub second: u32,
    pub milli: u32,
    pub micro: u32,
    pub nano: u32,
    pub pico: u32,
}

// ---- a stamp's bytes

// The digit's byte at a place, 0 behind the end.
fn byte_at(s: &[u8], at: usize) -> u8
    ensures { result ≡ get_or s.now at 0 }
{
    s.get(at).copied().unwrap_or(0)
}

// The number of the three digits from a place on; a digit that isn't there counts as 0.
fn three_at(s: &[u8], at: usize) -> u32
    requires { at ≤ 27 }
    ensures { result ≡ three_at s.now at }
{
    let high = u32::from(byte_at(s, at).saturating_sub(b'0'));
    high * 100 + pair_number(byte_at(s, at + 1), byte_at(s, at + 2))
}

// What a stamp's bytes say.
fn time_in(s: &[u8]) -> Time
    requires { 17 ≤ length s.now }
    ensures { time_of result ≡ time_in s.now }
{
    Time {
        year: pair_number(s[0], s[1]) * 100 + pair_number(s[2], s[3]),
        month: pair_number(s[4], s[5]),
        day: pair_number(s[6], s[7]),
        hour: pair_number(s[9], s[10]),
        minute: pair_number(s[12], s[13]),
        second: pair_number(s[15], s[16]),
        milli: three_at(s, 18),
        micro: three_at(s, 21),
        nano: three_at(s, 24),
        pico: three_at(s, 27),
    }
}

// ---- the number

// The milliseconds since 1 January 1970.
fn millis_of(time: Time) -> u64
    requires { InCalendar (time_of time) }
    ensures { result ≡ millis_of (time_of time) }
{
    let days = days_before(time.year, time.month, time.day) - FIRST_DAY;
    let hours = days * 24 + u64::from(time.hour);
    let minutes = hours * 60 + u64::from(time.minute);
    let seconds = minutes * 60 + u64::from(time.second);
    seconds * 1000 + u64::from(time.milli)
}

// A stamp's number: 6 for no stamp in any version, then 33 for a year before 1970 or a second 60.
pub fn read(s: &[u8]) -> Result<Moment, Refusal>
    ensures { read_of result ≡ read s.now }
{
    if !is_stamp(s) {
        return Err(Refusal::BadTimestamp);
    }
    let time = time_in(s);
    if time.year < FIRST_YEAR || time.second >= SECONDS {
        return Err(Refusal::StampWithoutNumber);
    }
    let micros = u64::from(time.micro) * 1000 + u64::from(time.nano);
    Ok(Moment {
        millis: millis_of(time),
        picos: micros * 1000 + u64::from(time.pico),
    })
}

// ---- the text

// What a number says.
fn time_at(moment: Moment) -> Time
    requires before_end { moment.millis < end_of_years }
    requires small { moment.picos < 1000000000 }
    ensures { time_of result ≡ time_at moment.millis moment.picos }
{
    let date = date_of(moment.millis / 86_400_000 + FIRST_DAY);
    Time {
        year: date.year,
        month: date.month,
        day: date.day,
        hour: (moment.millis / 3_600_000 % 24) as u32,
        minute: (moment.millis / 60_000 % 60) as u32,
        second: (moment.millis / 1000 % 60) as u32,
        milli: (moment.millis % 1000) as u32,
        micro: (moment.picos / 1_000_000) as u32,
        nano: (moment.picos / 1000 % 1000) as u32,
        pico: (moment.picos % 1000) as u32,
    }
}

// Two digits.
fn two(n: u32) -> [u8; 2]
    requires { n ≤ 99 }
    ensures { result ≡ two n }
{
    [b'0' + (n / 10) as u8, b'0' + (n % 10) as u8]
}

// Three digits.
fn three(n: u32) -> [u8; 3]
    requires { n ≤ 999 }
    ensures { result ≡ three n }
{
    let low = n % 100;
    [
        b'0' + (n / 100) as u8,
        b'0' + (low / 10) as u8,
        b'0' + (low % 10) as u8,
    ]
}

// YYYYMMDD-HH:MM:SS. and 12 digits.
fn full_text(time: Time) -> [u8; 30]
    requires { InCalendar (time_of time) }
    ensures { result ≡ full_text (time_of time) }
{
    let c = two(time.year / 100);
    let y = two(time.year % 100);
    let m = two(time.month);
    let d = two(time.day);
    let h = two(time.hour);
    let i = two(time.minute);
    let s = two(time.second);
    let f = three(time.milli);
    let g = three(time.micro);
    let n = three(time.nano);
    let p = three(time.pico);
    [
        c[0], c[1], y[0], y[1], m[0], m[1], d[0], d[1], b'-', h[0], h[1], b':', i[0], i[1], b':',
        s[0], s[1], b'.', f[0], f[1], f[2], g[0], g[1], g[2], n[0], n[1], n[2], p[0], p[1], p[2],
    ]
}

// The length without the groups of three zeros at the end, and without the point if no group is left.
fn shortest_length(time: Time) -> usize
    ensures { result ≡ shortest_length (time_of time) }
{
    if time.pico != 0 {
        30
    } else if time.nano != 0 {
        27
    } else if time.micro != 0 {
        24
    } else if time.milli != 0 {
        21
    } else {
        17
    }
}

// A number's stamp at the start of the area, and its length; 34 past 31 December 9999 or for a remainder of 1,000,000,000 or more, then 9 for an area too short.
pub fn write(moment: Moment, out: &mut [u8]) -> Result<usize, Refusal>
    ensures answer { told_of result ≡ told (lent (length out.old) (write moment.millis moment.picos)) }
    ensures area { out.new ≡ area_after (lent (length out.old) (write moment.millis moment.picos)) out.old }
{
    if moment.millis >= END || moment.picos >= PICOS {
        return Err(Refusal::NumberWithoutStamp);
    }
    let time = time_at(moment);
    let n = shortest_length(time);
    if out.len() < n {
        return Err(Refusal::NoRoom);
    }
    let text = full_text(time);
    out[0..n].copy_from_slice(&text[0..n]);
    Ok(n)
}

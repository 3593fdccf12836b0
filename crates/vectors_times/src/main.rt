// Replays stamps as numbers. The lines and what must be written come from Python's datetime, by tests/make/times_vectors.py: the first and the last day of each month
// of 1970 to 2370 and of each year to 9999, whose midnight is read and written back; then `T` with a stamp, and `N` with a number. The days between two dates are
// counted by the program itself, and each is held to its count, both ways.
#![tactic(auto)]

ghost use Rattle.std.specs.Prelude.{◌≡◌, length};

use std::io;
use times_stamp::Moment;
use vectors_script::{number, print_refusal};

#[derive(Clone, Copy, PartialEq, Eq)]
struct Date {
    year: u32,
    month: u32,
    day: u32,
}

impl Date {
    // The date of a line YYYYMMDD.
    fn of(n: u64) -> Date {
        Date {
            year: (n / 10_000 & 0xffff) as u32,
            month: (n / 100 % 100) as u32,
            day: (n % 100) as u32,
        }
    }

    // The days of its month.
    fn last(self) -> u32 {
        match self.month {
            2 if self.year % 400 == 0 => 29,
            2 if self.year % 100 == 0 => 28,
            2 if self.year % 4 == 0 => 29,
            2 => 28,
            4 | 6 | 9 | 11 => 30,
            _ => 31,
        }
    }

    fn next(self) -> Date {
        if self.day < self.last() {
            Date {
                day: self.day + 1,
                ..self
            }
        } else if self.month < 12 {
            Date {
                month: self.month + 1,
                day: 1,
                ..self
            }
        } else {
            Date {
                year: self.year.saturating_add(1),
                month: 1,
                day: 1,
            }
        }
    }

    // Its midnight as a stamp.
    fn midnight(self) -> [u8; 17] {
        let (y, m, d) = (self.year, self.month, self.day);
        let (y0, y1, y2, y3) = (digit(y / 1000), digit(y / 100), digit(y / 10), digit(y));
        let (m0, m1, d0, d1) = (digit(m / 10), digit(m), digit(d / 10), digit(d));
        [
            y0, y1, y2, y3, m0, m1, d0, d1, b'-', b'0', b'0', b':', b'0', b'0', b':', b'0', b'0',
        ]
    }
}

fn digit(n: u32) -> u8 {
    b'0' + (n % 10) as u8
}

// The date reached, the days before it since 1 January 1970, and how many of those counted are read or written as another.
#[derive(Clone, Copy)]
struct Count {
    date: Date,
    days: u64,
    differ: u64,
}

// Whether a date's midnight is read as so many days, and comes back.
fn holds(date: Date, days: u64) -> bool {
    let stamp = date.midnight();
    let mut out = [0u8; 30];
    let Ok(moment) = times_stamp::read(&stamp) else {
        return false;
    };
    if moment.millis != days.wrapping_mul(86_400_000) || moment.picos != 0 {
        return false;
    }
    match times_stamp::write(moment, &mut out) {
        Ok(len) => out.get(..len) == Some(stamp.as_slice()),
        Err(_) => false,
    }
}

// Counts on to a date, at most a year on.
fn count_to(count: Count, date: Date) -> Count {
    let mut count = count;
    for _ in 0..366 {
        if count.date == date {
            break;
        }
        let (date, days) = (count.date.next(), count.days.wrapping_add(1));
        count.date = date;
        count.days = days;
        if !holds(date, days) {
            count.differ = count.differ.wrapping_add(1);
        }
    }
    if count.date != date {
        count.differ = count.differ.wrapping_add(1);
    }
    count
}

fn print_read(rt: &impl Print, stamp: &[u8]) -> io::Result<()> {
    match times_stamp::read(stamp) {
        Ok(moment) => println!(rt; "{} {}", moment.millis, moment.picos),
        Err(refusal) => print_refusal(rt, refusal.number()),
    }
}

fn print_written(rt: &impl Print, moment: Moment) -> io::Result<()> {
    let mut out = [0u8; 30];
    match times_stamp::write(moment, &mut out) {
        Ok(len) => {
            rt.write_all(out.get(..len).unwrap_or(&[]))?;
            println!(rt; "")
        }
        Err(refusal) => print_refusal(rt, refusal.number()),
    }
}

// A date's midnight as milliseconds, and the stamp that comes back from them.
fn print_date(rt: &impl Print, date: Date) -> io::Result<()> {
    match times_stamp::read(&date.midnight()) {
        Ok(moment) => {
            print!(rt; "{} ", moment.millis)?;
            print_written(rt, moment)
        }
        Err(refusal) => print_refusal(rt, refusal.number()),
    }
}

// The answer to a line that is no date.
fn answer(rt: &impl Print, line: &[u8]) -> io::Result<()> {
    let rest = vectors_script::rest(line);
    if line.starts_with(b"T") {
        return print_read(rt, rest);
    }
    let mut words = vectors_script::words(rest);
    let millis = number(&mut words);
    let picos = number(&mut words);
    print_written(rt, Moment { millis, picos })
}

// Room for the whole list. A function of its own: where `main` makes the area, the check of it runs out of its stack.
fn area() -> [u8; 524_288]
    ensures { 524288 ≡ length result }
{
    [0u8; 524_288]
}

fn main(rt: HostRuntime) -> io::Result<()> {
    let mut room = area();
    let mut count = Count {
        date: Date::of(19_700_101),
        days: 0,
        differ: 0,
    };
    let script = vectors_script::read_script(&rt, &mut room)?;
    for line in script.split_inclusive(|b| *b == b'\n') {
        let date = number(&mut vectors_script::words(line));
        if date == 0 {
            answer(&rt, line)?;
        } else {
            count = count_to(count, Date::of(date));
            print_date(&rt, Date::of(date))?;
        }
    }
    println!(&rt; "counted to day {}, {} differ", count.days, count.differ)
}

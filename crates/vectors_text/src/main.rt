// Runs the examples of RFC 3629, the edges of each length, all inputs of one, two and three bytes, all first bytes with good and bad
// following bytes, and stamps by version, marks and keys, and writes how many were taken. What it must write was counted with Python's decoder.
#![tactic(auto)]

use frame_stamp::{Protocol, is_key, is_marks, takes_stamp};
use frame_utf8::is_utf8;
use std::io;

// How many inputs there were, how many of them were taken, and the sum of the numbers of those taken, which tells them apart.
#[derive(Clone, Copy, Default)]
struct Tally {
    of: u64,
    taken: u64,
    sum: u64,
}

impl Tally {
    fn add(&mut self, taken: bool) {
        self.of = self.of.wrapping_add(1);
        if taken {
            self.taken = self.taken.wrapping_add(1);
            self.sum = self.sum.wrapping_add(self.of);
        }
    }

    fn print(&self, rt: &impl Print, name: &str) -> io::Result<()> {
        println!(rt;
            "{name}: {} of {} taken, sum {}",
            self.taken, self.of, self.sum
        )
    }
}

// How many of the parts of s a test takes; each part has a bar behind it.
fn row<F>(rt: &impl Print, name: &str, s: &[u8], test: F) -> io::Result<()>
where
    F: Fn(&[u8]) -> bool + Drop,
    requires { F.IsAlwaysCallable test }
{
    let mut tally = Tally::default();
    for part in s.split_inclusive(|b| *b == b'|') {
        tally.add(test(part.strip_suffix(b"|").unwrap_or(part)));
    }
    tally.print(rt, name)
}

// How many of the numbers below n a test takes; it is given the last three bytes of each.
fn sweep<F>(rt: &impl Print, name: &str, n: u64, test: F) -> io::Result<()>
where
    F: Fn(u8, u8, u8) -> bool + Drop,
    requires { F.IsAlwaysCallable test }
{
    let mut tally = Tally::default();
    for k in 0..n {
        let [.., a, b, c] = k.to_be_bytes();
        tally.add(test(a, b, c));
    }
    tally.print(rt, name)
}

fn is_taken(stamp: &[u8]) -> bool {
    takes_stamp(Protocol::first(), stamp)
}

fn is_taken_by_latest(stamp: &[u8]) -> bool {
    takes_stamp(Protocol::latest(), stamp)
}

// ASCII with the byte b at a place, which the test passes by blocks but for that byte.
fn is_long(at: u8, b: u8) -> bool {
    let mut s = [0x41u8; 80];
    s[at as usize % 80] = b;
    is_utf8(&s)
}

// The byte b before so many bytes 80, at most four.
fn is_led(following: u8, b: u8) -> bool {
    let s = [b, 0x80, 0x80, 0x80, 0x80];
    is_utf8(&s[..1 + following as usize % 5])
}

// The examples of RFC 3629, and the first and the last of each length.
fn texts_taken(rt: &impl Print) -> io::Result<()> {
    row(
        rt,
        "RFC 3629, section 7",
        b"A\xE2\x89\xA2\xCE\x91.|\xED\x95\x9C\xEA\xB5\xAD\xEC\x96\xB4|\
        \xE6\x97\xA5\xE6\x9C\xAC\xE8\xAA\x9E|\xEF\xBB\xBF\xF0\xA3\x8E\xB4|",
        is_utf8,
    )?;
    row(
        rt,
        "first and last of each length",
        b"\x00|\x7F|\xC2\x80|\xDF\xBF|\xE0\xA0\x80|\xED\x9F\xBF|\xEE\x80\x80|\xEF\xBF\xBF|\
        \xF0\x90\x80\x80|\xF4\x8F\xBF\xBF||",
        is_utf8,
    )
}

// One before the first and one after the last of each length, then sequences out of form.
fn texts_refused(rt: &impl Print) -> io::Result<()> {
    row(
        rt,
        "overlong, surrogates, above 10FFFF",
        b"\xC0\x80|\xC1\xBF|\xE0\x80\x80|\xE0\x9F\xBF|\xED\xA0\x80|\xED\xAF\xBF|\
        \xED\xB0\x80|\xED\xBF\xBF|\xED\xA1\x8C\xED\xBE\xB4|\xF0\x80\x80\x80|\xF0\x8F\xBF\xBF|\xF4\x90\x80\x80|\xF5\x80\x80\x80|\xF7\xBF\xBF\xBF|",
        is_utf8,
    )?;
    row(
        rt,
        "out of form",
        b"\x80|\xBF|\xF8\x88\x80\x80\x80|\xFC\x84\x80\x80\x80\x80|\xFE|\xFF|\xC2|\xC2A|\xC2\xC0|\xE2\x89|\
        \xE2\x89A|\xE2A\xA2|A\xF0\xA3\x8E|\xF0\xA3\x8E\xC0|\xF0\xA3\x41\xB4|A\x80|",
        is_utf8,
    )
}

fn stamps(rt: &impl Print) -> io::Result<()> {
    row(
        rt,
        "stamps in range",
        b"20240229-23:59:60|00000101-00:00:00|99991231-23:59:59.999|20240131-00:00:00.000|20230228-12:30:30|",
        is_taken,
    )?;
    row(
        rt,
        "stamps out of range",
        b"20240229-24:00:00|20240229-23:60:00|20240229-23:59:61|20240029-23:59:59|20241329-23:59:59|\
        20240200-23:59:59|20240132-23:59:59|2024022a-23:59:59|20240229-2/:59:59|",
        is_taken,
    )?;
    row(
        rt,
        "stamps out of form",
        b"|20240229-23:59:5|20240229 23:59:59|20240229-23.59:59|20240229-23:59:59.|20240229-23:59:59.12|\
        20240229-23:59:59,123|20240229-23:59:59.1234|20240229-23:59:59.123456|20240229-23:59:59.12a|",
        is_taken,
    )
}

// A stamp with 0 to 13 digits after the point, and one of each length that is out of form.
fn fractions(rt: &impl Print) -> io::Result<()> {
    let digits =
        b"20240229-23:59:60|20240229-23:59:60.1|20240229-23:59:60.12|20240229-23:59:60.123|20240229-23:59:60.1234|\
        20240229-23:59:60.12345|20240229-23:59:60.123456|20240229-23:59:60.1234567|20240229-23:59:60.12345678|\
        20240229-23:59:60.123456789|20240229-23:59:60.1234567890|20240229-23:59:60.12345678901|\
        20240229-23:59:60.123456789012|20240229-23:59:60.1234567890123|";
    row(rt, "0 to 13 digits, version 1", digits, is_taken)?;
    row(rt, "0 to 13 digits, version 2", digits, is_taken_by_latest)?;
    let others =
        b"20230229-23:59:60.123456|20240229-23:59:60,123456789|20240229-23:59:60.12345678901a|20240229-23:59:60.1234567/9|";
    row(rt, "out of form, version 1", others, is_taken)?;
    row(rt, "out of form, version 2", others, is_taken_by_latest)
}

// The last day of each month and the day after it; February of leap years and others.
fn days(rt: &impl Print) -> io::Result<()> {
    row(
        rt,
        "last days",
        b"20230131-00:00:00|20230228-00:00:00|20230331-00:00:00|20230430-00:00:00|20230531-00:00:00|\
        20230630-00:00:00|20230731-00:00:00|20230831-00:00:00|20230930-00:00:00|20231031-00:00:00|\
        20231130-00:00:00|20231231-00:00:00|20240229-00:00:00|20000229-00:00:00|00000229-00:00:00|\
        99991231-00:00:00|",
        is_taken,
    )?;
    row(
        rt,
        "days after them",
        b"20230132-00:00:00|20230229-00:00:00|20230332-00:00:00|20230431-00:00:00|20230532-00:00:00|\
        20230631-00:00:00|20230732-00:00:00|20230832-00:00:00|20230931-00:00:00|20231032-00:00:00|\
        20231131-00:00:00|20231232-00:00:00|20240230-00:00:00|20000230-00:00:00|00000230-00:00:00|\
        19000229-00:00:00|21000229-00:00:00|99991232-00:00:00|",
        is_taken,
    )
}

fn names(rt: &impl Print) -> io::Result<()> {
    row(
        rt,
        "marks",
        b"|B|ABCDEFGHIJKLMNOPQRSTUVWXYZ012345ABCDEFGHIJKLMNOPQRSTUVWXYZ012345|\
        ABCDEFGHIJKLMNOPQRSTUVWXYZ012345ABCDEFGHIJKLMNOPQRSTUVWXYZ0123456| ~|\x1F|\x7F|A\xC2\x80|A\n|",
        is_marks,
    )?;
    let parts =
        b"|A|ABCDEFGHIJKLMNOPQRSTUVWXYZ012345|ABCDEFGHIJKLMNOPQRSTUVWXYZ0123456| ~|\x1F|\x7F|\xC2\x80|";
    let a = b"A";
    row(rt, "begin string", parts, |s| is_key(s, a, a, a))?;
    row(rt, "sender", parts, |s| is_key(a, s, a, a))?;
    row(rt, "target", parts, |s| is_key(a, a, s, a))?;
    row(rt, "suffix", parts, |s| is_key(a, a, a, s))
}

// All inputs of one to three bytes.
fn short_inputs(rt: &impl Print) -> io::Result<()> {
    sweep(rt, "all of one byte", 256, |_, _, a| is_utf8(&[a]))?;
    sweep(rt, "all of two bytes", 65536, |_, a, b| is_utf8(&[a, b]))?;
    sweep(
        rt,
        "all of three bytes",
        16777216,
        |a, b, c| is_utf8(&[a, b, c]),
    )
}

// All inputs of two bytes at two places of four, the others given; first bytes and what follows them; a byte in a long text.
fn long_inputs(rt: &impl Print) -> io::Result<()> {
    sweep(
        rt,
        "first two of four",
        65536,
        |_, a, b| is_utf8(&[a, b, 0x80, 0x80]),
    )?;
    sweep(
        rt,
        "first and third, after 8F",
        65536,
        |_, a, b| is_utf8(&[a, 0x8F, b, 0xBF]),
    )?;
    sweep(
        rt,
        "first and third, after 90",
        65536,
        |_, a, b| is_utf8(&[a, 0x90, b, 0x80]),
    )?;
    sweep(
        rt,
        "first and last, after 90 80",
        65536,
        |_, a, b| is_utf8(&[a, 0x90, 0x80, b]),
    )?;
    sweep(
        rt,
        "first and last, after 8F BF",
        65536,
        |_, a, b| is_utf8(&[a, 0x8F, 0xBF, b]),
    )?;
    sweep(
        rt,
        "first bytes, then 80, of one to five bytes",
        1280,
        |_, a, b| is_led(a, b),
    )?;
    sweep(rt, "a byte in 80 of ASCII", 20480, |_, a, b| is_long(a, b))
}

fn main(rt: HostRuntime) -> io::Result<()> {
    texts_taken(&rt)?;
    texts_refused(&rt)?;
    stamps(&rt)?;
    fractions(&rt)?;
    days(&rt)?;
    names(&rt)?;
    short_inputs(&rt)?;
    long_inputs(&rt)
}

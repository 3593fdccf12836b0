// What the programs share that run recorded lines: a script read from standard input, the fields or the words of a line, and the area that is lent.
#![tactic(auto)]

ghost use Rattle.std.specs.Prelude.{◌≤◌, IfOk, length};
ghost use Rattle.vectors_script.specs.Words.{ReadsNumbers};

use base_refusals::Refusal;
use std::io;
use std::io::Read;
use std::str::{self, SplitWhitespace};

// Reads until the room is full or the input ends, and says how many bytes came.
fn fill(rt: &impl Input, room: &mut [u8]) -> io::Result<usize>
    ensures { IfOk result (λ n. n ≤ length room.new) }
{
    let mut reader = rt.reader();
    let mut done: usize = 0;
    // A while: each read tells how many bytes it brought, so no index counts them.
    while done < room.len() {
        let n = reader.read(&mut room[done..])?;
        if n == 0 {
            break;
        }
        done += n;
    }
    Ok(done)
}

// The script: as many bytes of the input as there is room for.
pub fn read_script<'a>(rt: &impl Input, room: &'a mut [u8]) -> io::Result<&'a [u8]>
    ensures { IfOk result (λ script. length script.now ≤ length room.old) }
{
    let n = fill(rt, room)?;
    Ok(&room[..n])
}

// What stands behind a line's letter and one more byte, without the line's end; none where the line is shorter.
pub fn text(line: &[u8]) -> Option<&[u8]> {
    line.strip_suffix(b"\n").unwrap_or(line).get(2..)
}

// The same, empty where the line is shorter.
pub fn rest(line: &[u8]) -> &[u8] {
    text(line).unwrap_or(&[])
}

// The number that a field begins with, up to the first byte below the digits. A byte above them counts by its low half, and of more digits
// than a u64 has the last count: so the scripts have always been read.
pub fn digits(field: &[u8]) -> u64 {
    field
        .iter()
        .take_while(|byte| b'0' <= **byte)
        .fold(0u64, |value, byte| {
            (value % 1_844_674_407_370_955_162 * 10).wrapping_add(u64::from(byte % 16))
        })
}

// The fields of a line that are left. Each ends with one blank, or where the line does: between two blanks there is an empty one.
#[derive(Clone, Copy)]
pub struct Fields<'a> {
    pub left: &'a [u8],
}

impl<'a> Fields<'a> {
    // The fields of a text.
    pub fn of(text: &'a [u8]) -> Fields<'a> {
        Fields { left: text }
    }

    // The fields of a line behind its first one.
    pub fn behind_name(line: &'a [u8]) -> Fields<'a> {
        let mut fields = Fields::of(line);
        let _name = fields.field();
        fields
    }

    // The next field and the blank behind it, empty where there is none.
    pub fn field(&mut self) -> &'a [u8] {
        let left = self.left;
        let field = left
            .split_inclusive(|byte| *byte == b' ')
            .next()
            .unwrap_or(&[]);
        self.left = left.get(field.len()..).unwrap_or(&[]);
        field
    }

    // The next field as a number, 0 where there is none.
    pub fn number(&mut self) -> u64 {
        digits(self.field())
    }

    // The next field as a number of 32 bits: the low ones.
    pub fn small(&mut self) -> u32 {
        (self.number() & 0xffff_ffff) as u32
    }

    // The next field as a byte: the low bits.
    pub fn byte(&mut self) -> u8 {
        (self.number() & 0xff) as u8
    }

    // The numbers that are left, as many as there is room for.
    pub fn numbers<'b>(&self, room: &'b mut [u64]) -> &'b [u64] {
        let mut count: usize = 0;
        for (place, field) in room
            .iter_mut()
            .zip(self.left.split_inclusive(|byte| *byte == b' '))
        {
            *place = digits(field);
            // At most as many as there are places, so the sum never saturates.
            count = count.saturating_add(1);
        }
        room.get(..count).unwrap_or(&[])
    }
}

// The words of a text, none where it is not UTF-8.
pub fn words(text: &[u8]) -> SplitWhitespace<'_> {
    str::from_utf8(text).unwrap_or("").split_whitespace()
}

// The next word as a number, 0 where there is none.
pub fn number(words: &mut SplitWhitespace<'_>) -> u64 {
    words.next().and_then(|word| word.parse().ok()).unwrap_or(0)
}

// The next word as a number of 32 bits: the low ones.
pub fn small(words: &mut SplitWhitespace<'_>) -> u32 {
    (number(words) & 0xffff_ffff) as u32
}

// The next word as a byte: the low bits.
pub fn byte(words: &mut SplitWhitespace<'_>) -> u8 {
    (number(words) & 0xff) as u8
}

// The numbers of the words that are left, as many as there is room for; `Fields::numbers` reads fields.
pub fn numbers<'a>(words: &mut SplitWhitespace<'_>, room: &'a mut [u64]) -> &'a [u64]
    ensures { ReadsNumbers room.old result.now words.old words.new }
{
    let mut count: usize = 0;
    for place in &mut *room {
        let Some(word) = words.next() else {
            break;
        };
        *place = word.parse().unwrap_or(0);
        // At most as many as there are places, so the sum never saturates.
        count = count.saturating_add(1);
    }
    room.get(..count).unwrap_or(&[])
}

// A refusal as every program writes it: by its number, as an Answer of C has it.
pub fn print_refusal(rt: &impl Print, number: u8) -> io::Result<()> {
    println!(rt; "R {number}")
}

// What a call gives that has nothing to tell: done, or a refusal.
pub fn print_done(rt: &impl Print, answer: Result<(), Refusal>) -> io::Result<()> {
    match answer {
        Ok(()) => println!(rt; "ok"),
        Err(refusal) => print_refusal(rt, refusal.number()),
    }
}

// A line on the area that is lent: `word I V` sets a word, and what else there is goes to the call. A line's first letters say what it is, so one of a
// single byte is left out.
fn replay_on<R, F>(rt: &R, area: &mut [u64], line: &[u8], call: &F) -> io::Result<()>
where
    F: Fn(&R, &mut [u64], &[u8]) -> io::Result<()>,
    requires { F.IsAlwaysCallable call.now }
{
    if line.len() < 2 {
        return Ok(());
    }
    if !line.starts_with(b"w") {
        return call(rt, area, line);
    }
    let mut fields = Fields::behind_name(line);
    let at = fields.number() as usize;
    if let Some(word) = area.get_mut(at) {
        *word = fields.number();
    }
    Ok(())
}

// Calls with each line, without its end, and the area that is lent: after `lend 0` the short one, after `lend 1` the whole one again.
pub fn replay_lent<R, F>(
    rt: &R,
    script: &[u8],
    whole: &mut [u64],
    short: &mut [u64],
    call: F,
) -> io::Result<()>
where
    F: Fn(&R, &mut [u64], &[u8]) -> io::Result<()> + Drop,
    requires { F.IsAlwaysCallable call }
{
    let mut lends_whole = true;
    for line in script.split_inclusive(|b| *b == b'\n') {
        let line = line.strip_suffix(b"\n").unwrap_or(line);
        if line.starts_with(b"l") {
            lends_whole = Fields::behind_name(line).number() != 0;
        } else if lends_whole {
            replay_on(rt, whole, line, &call)?;
        } else {
            replay_on(rt, short, line, &call)?;
        }
    }
    Ok(())
}

#[cfg(test)]
mod tests {
    use super::*;

    #[test]
    fn numbers_of_words(rt: HostRuntime) {
        let mut room = [9u64; 4];
        // A word that is no number of 64 bits counts as 0, a plus may stand before one, and what there is no room for is left.
        let mut left = words(b" 7  x +18446744073709551615\n18446744073709551616 5");
        assert_eq!(rt;
            numbers(&mut left, &mut room),
            [7, 0, u64::MAX, 0].as_slice()
        );
        // With fewer words than there is room for, as many numbers as there are words, and none after them.
        assert_eq!(rt; numbers(&mut left, &mut room), [5].as_slice());
        assert_eq!(rt; numbers(&mut left, &mut room), [].as_slice());
    }
}

// The program `lowest`, one line at a time: a frame in digits, and the lowest message on hand where its call hands it up, else a hyphen.
#![tactic(auto)]

ghost use Rattle.std.specs.Prelude.{◌≤◌, length, decimal};
ghost use Rattle.base_hex.specs.Lines.{Puts};
ghost use Rattle.frames_lowest.specs.Telling.{record_text, heard_text, TellsLine};

use frames_line::LineAnswer;
use itoa::Buffer;
use standby_row::Bound;
use standby_state::{Answer, Replica};

// Where none is handed up: 0 is a value, for a session without messages.
const HYPHEN: u8 = b'-';

// Writes a number's digits at the start of out, and gives how many they are.
fn put_number(n: u64, out: &mut [u8]) -> usize
    requires { 20 ≤ length out.old }
    ensures { Puts (decimal n) out.old out.new result }
{
    let mut buffer = Buffer::new();
    let digits = buffer.format(n).as_bytes();
    base_bytes::copy(digits, out, 0)
}

// What a call hands up, at the start of out.
fn put_record(answer: Answer, out: &mut [u8]) -> usize
    requires { 20 ≤ length out.old }
    ensures { Puts (record_text answer) out.old out.new result }
{
    if answer.has_lowest == 0 {
        out[0] = HYPHEN;
        return 1;
    }
    put_number(answer.lowest, out)
}

// The same of a line that may have no bytes.
fn put_heard(answer: Option<Answer>, out: &mut [u8]) -> usize
    requires { 20 ≤ length out.old }
    ensures { Puts (heard_text answer) out.old out.new result }
{
    match answer {
        Some(answer) => put_record(answer, out),
        None => {
            out[0] = HYPHEN;
            1
        }
    }
}

// What a line hands up, over slices that are long enough.
fn tell_in(
    counters: Replica,
    row: [Bound; 4],
    words: &mut [u64],
    bytes: &mut [u8],
    holds: &mut [u8],
    line: &[u8],
    buf: &mut [u8],
    out: &mut [u8],
) -> LineAnswer
    requires in_bounds { 8192 ≤ length buf.old }
    requires out_in_bounds { 20 ≤ length out.old }
    ensures { TellsLine line.now counters result.replica row result.row words.old words.new bytes.old bytes.new holds.old holds.new out.old out.new result.len }
{
    let heard = frames_line::hear(counters, row, words, bytes, holds, line, buf);
    let replica = heard.replica;
    let row = heard.row;
    LineAnswer {
        replica,
        row,
        len: put_heard(heard.answer, out),
    }
}

// What a line hands up: its text stands at the start of out. buf is for the frame's bytes.
pub fn tell_line(
    counters: Replica,
    row: [Bound; 4],
    words: &mut [u64],
    bytes: &mut [u8],
    holds: &mut [u8],
    line: &[u8],
    buf: &mut [u8; 8192],
    out: &mut [u8; 16384],
) -> LineAnswer
    ensures { TellsLine line.now counters result.replica row result.row words.old words.new bytes.old bytes.new holds.old holds.new out.old out.new result.len }
{
    tell_in(counters, row, words, bytes, holds, line, buf, out)
}

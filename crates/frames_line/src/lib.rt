// The program `frames`, one line at a time: a frame in digits, and the answer's digits or its refusal. The counters, the row and the areas
// come apart, as the standby's calls take them.
#![tactic(auto)]

ghost use Rattle.std.specs.Prelude.{◌≡◌, ◌*◌, ◌≤◌, length};
ghost use Rattle.frames_line.specs.Answering.{the_settings, Hears, AnswersLine};

use base_refusals::Refusal;
use frame_fields::Incarnation;
use frame_stamp::Protocol;
use standby_row::Bound;
use standby_state::{Answer, Replica, Settings};
use store_areas::Shape;

// What a line leaves of the counters and the row, and the length of its answer's text.
#[derive(Clone, Copy)]
pub struct LineAnswer {
    pub replica: Replica,
    pub row: [Bound; 4],
    pub len: usize,
}

// The store's shape: four sessions, C 4,096, M 64.
pub fn shape() -> Shape
    ensures { result ≡ the_settings.shape }
{
    Shape {
        places: 4,
        bytes: 4096,
        messages: 64,
    }
}

// Incarnation 7, lag 0.
pub fn settings() -> Settings
    ensures { result ≡ the_settings }
{
    Settings::new(shape(), Incarnation(7), 0)
}

// What a line leaves of the counters and the row, and what its call answers: nothing where the line has no bytes.
#[derive(Clone, Copy)]
pub struct LineHeard {
    pub replica: Replica,
    pub row: [Bound; 4],
    pub answer: Option<Answer>,
}

// Hands a line's bytes to the standby; buf is for them.
pub fn hear(
    counters: Replica,
    row: [Bound; 4],
    words: &mut [u64],
    bytes: &mut [u8],
    holds: &mut [u8],
    line: &[u8],
    buf: &mut [u8],
) -> LineHeard
    requires { 8192 ≤ length buf.old }
    ensures { Hears line.now counters result.replica row result.row words.old words.new bytes.old bytes.new holds.old holds.new result.answer }
{
    match base_hex::read_line(line, buf) {
        Some(n) => {
            let mut replica = counters;
            let mut row = row;
            let answer = replica::on_frame(
                &mut replica,
                &mut row,
                words,
                bytes,
                holds,
                &mut [],
                &buf[0..n],
                settings(),
            );
            LineHeard {
                replica,
                row,
                answer: Some(answer),
            }
        }
        None => LineHeard {
            replica: counters,
            row,
            answer: None,
        },
    }
}

// The answer to a line, over slices that are long enough.
fn answer_in(
    counters: Replica,
    row: [Bound; 4],
    words: &mut [u64],
    bytes: &mut [u8],
    holds: &mut [u8],
    line: &[u8],
    buf: &mut [u8],
    out: &mut [u8],
) -> LineAnswer
    requires in_bounds { 8192 ≤ length buf.old }
    requires buf_in_bounds { 2 * length buf.old ≤ length out.old }
    ensures { AnswersLine line.now counters result.replica row result.row words.old words.new bytes.old bytes.new holds.old holds.new out.old out.new result.len }
{
    let heard = hear(counters, row, words, bytes, holds, line, buf);
    let replica = heard.replica;
    let row = heard.row;
    let protocol = Protocol::of_byte(replica.version2);
    match heard.answer {
        Some(answer) => LineAnswer {
            replica,
            row,
            len: frames_reply::put_answer(protocol, answer, bytes, buf, out),
        },
        None => LineAnswer {
            replica,
            row,
            len: base_hex::put_refusal(Refusal::NotOneFrame.number(), out),
        },
    }
}

// The answer to a line: its text stands at the start of out. buf is for the frame's bytes and then for the answer's.
pub fn answer_line(
    counters: Replica,
    row: [Bound; 4],
    words: &mut [u64],
    bytes: &mut [u8],
    holds: &mut [u8],
    line: &[u8],
    buf: &mut [u8; 8192],
    out: &mut [u8; 16384],
) -> LineAnswer
    ensures { AnswersLine line.now counters result.replica row result.row words.old words.new bytes.old bytes.new holds.old holds.new out.old out.new result.len }
{
    answer_in(counters, row, words, bytes, holds, line, buf, out)
}

// What the programs `frames` and `lowest` share: frames in, one line of lower-case hexadecimal digits each, and a text for each line out. One new
// standby takes them all: incarnation 7, lag 0, C 4,096, M 64, four sessions, four handles, hold areas of 5,626 bytes.
// The texts of the lines that one read brings are written together. A failing read or write is said on standard error and ends the run; the
// program's exit status is then 3 or 4; where nobody reads the texts any more it is 141, and nothing is said.
#![tactic(auto)]

ghost use Rattle.std.specs.Prelude.{◌≤◌, IfOk, IfSome, length};

use frames_line::LineAnswer;
use standby_row::Bound;
use standby_state::Replica;
use std::io;
use std::io::{ErrorKind, Read};
use std::process::ExitCode;

// The exit statuses of a run that a failing read or write ended.
const INPUT_FAILED: u8 = 3;

const OUTPUT_FAILED: u8 = 4;

// The status where nobody reads the answers any more: what a shell shows of a program that SIGPIPE ends.
const OUTPUT_CLOSED: u8 = 141;

// What is said of each line: its answer, or the lowest message on hand.
#[derive(Clone, Copy)]
pub enum Says {
    Answers,
    Lowest,
}

impl Says {
    // The program's name.
    fn name(self) -> &'static str {
        match self {
            Says::Answers => "frames",
            Says::Lowest => "lowest",
        }
    }
}

// The read or the write that failed.
#[derive(Drop)]
enum Failure {
    Input(io::Error),
    Output(io::Error),
}

// A standby of four handles, with all that is lent to its calls, and what is said of its lines.
#[derive(Drop)]
struct Standby<'a> {
    says: Says,
    counters: Replica,
    row: [Bound; 4],
    words: &'a mut [u64],
    bytes: &'a mut [u8],
    holds: &'a mut [u8],
}

// The answers that aren't written yet: so many bytes of an area. They stand beside the standby, since a struct with such a struct in it isn't
// covered where it is made of what `main` lends. Not a `base_bytes::Writer`: this one is written out and begins anew where it is full.
#[derive(Drop)]
struct Answers<'a> {
    out: &'a mut [u8],
    len: usize,
    ghost within: { len ≤ length out.now },
}

impl Answers<'_> {
    // Writes the answers that wait.
    fn send(&mut self, rt: &impl Print) -> Result<(), Failure> {
        let len = self.len;
        rt.write_all(&self.out[..len]).map_err(Failure::Output)?;
        self.len = 0;
        Ok(())
    }

    // Whether a text of so many bytes and its line feed fit behind the answers that wait.
    fn fits(&self, len: usize) -> bool {
        len < self.out.len() - self.len
    }

    // Puts a text and its line feed behind the answers that wait, which are written first where it doesn't fit.
    fn add(&mut self, rt: &impl Print, text: &[u8]) -> Result<(), Failure> {
        let len = text.len();
        if !self.fits(len) {
            self.send(rt)?;
        }
        let from = self.len;
        if len < self.out.len() - from {
            self.out[from..from + len].copy_from_slice(text);
            self.out[from + len] = b'\n';
            self.len = from + len + 1;
        }
        Ok(())
    }
}

// A line's text, at the start of out.
fn text_of(
    says: Says,
    counters: Replica,
    row: [Bound; 4],
    words: &mut [u64],
    bytes: &mut [u8],
    holds: &mut [u8],
    line: &[u8],
    buf: &mut [u8; 8192],
    out: &mut [u8; 16384],
) -> LineAnswer
    ensures { result.len ≤ length out.new }
{
    match says {
        Says::Answers => frames_line::answer_line(
            counters, row, words, bytes, holds, line, buf, out,
        ),
        Says::Lowest => frames_lowest::tell_line(
            counters, row, words, bytes, holds, line, buf, out,
        ),
    }
}

// Says what is said of one line.
fn tell(
    rt: &impl Print,
    standby: &mut Standby,
    answers: &mut Answers,
    line: &[u8],
) -> Result<(), Failure> {
    let mut buf = [0u8; 8192];
    let mut text = [0u8; 16384];
    // By names: the borrow check doesn't cover an array in a field that is handed on straight, and the row is one.
    let counters = standby.counters;
    let row = standby.row;
    let t = text_of(
        standby.says,
        counters,
        row,
        standby.words,
        standby.bytes,
        standby.holds,
        line,
        &mut buf,
        &mut text,
    );
    let replica = t.replica;
    let row = t.row;
    standby.counters = replica;
    standby.row = row;
    let n = t.len;
    answers.add(rt, &text[0..n])
}

// Answers the lines that end in a piece of the input, the first of which begins with the `len` bytes that wait: how many bytes of the next
// line wait then. Of a line no more than the area is kept, which is more than a line may have.
// The line is an area of fixed size with its length beside, as `base_lines::feed` takes it (no heap).
fn take_piece(
    rt: &impl Print,
    standby: &mut Standby,
    answers: &mut Answers,
    line: &mut [u8],
    len: usize,
    piece: &[u8],
) -> Result<usize, Failure>
    requires { len ≤ length line.old }
    ensures { IfOk result (λ n. n ≤ length line.old) }
{
    let mut len = len;
    let mut at: usize = 0;
    // A while: each line feed tells where the next line begins, so no index counts them.
    while at < piece.len() {
        let f = base_lines::feed(line, len, piece, at);
        let Some(next) = f.next else {
            return Ok(f.len);
        };
        tell(rt, standby, answers, &line[..f.len])?;
        len = 0;
        at = next;
    }
    Ok(len)
}

// Reads once: how many bytes of the next line wait then, or nothing where the input has ended. The line stands as in `take_piece`.
fn read_on(
    from: &mut impl Read,
    rt: &impl Print,
    standby: &mut Standby,
    answers: &mut Answers,
    line: &mut [u8],
    len: usize,
) -> Result<Option<usize>, Failure>
    requires { len ≤ length line.old }
    ensures { IfOk result (λ o. IfSome o (λ n. n ≤ length line.old)) }
{
    let mut piece = [0u8; 65_536];
    match from.read(&mut piece) {
        Ok(0) => Ok(None),
        Ok(n) => {
            let len = take_piece(rt, standby, answers, line, len, &piece[..n])?;
            answers.send(rt)?;
            Ok(Some(len))
        }
        Err(e) => Err(Failure::Input(e)),
    }
}

// Reads until the input ends: how many bytes wait of a last line that lacks its line feed. A proved loop has to end: it counts up to a number
// that no run reaches.
fn read_all(
    from: &mut impl Read,
    rt: &impl Print,
    standby: &mut Standby,
    answers: &mut Answers,
    line: &mut [u8],
) -> Result<usize, Failure>
    ensures { IfOk result (λ n. n ≤ length line.old) }
{
    let mut len = 0;
    for _ in 0..u64::MAX {
        let Some(n) = read_on(from, rt, standby, answers, line, len)? else {
            break;
        };
        len = n;
    }
    Ok(len)
}

// Answers all lines, and a last one that lacks its line feed. One that a failure has cut short isn't answered.
fn run(rt: &(impl Input + Print), standby: &mut Standby, line: &mut [u8]) -> Result<(), Failure> {
    let mut out = [0u8; 65_536];
    let mut answers = Answers {
        out: &mut out,
        len: 0,
    };
    let mut from = rt.reader();
    let len = read_all(&mut from, rt, standby, &mut answers, line)?;
    if len == 0 {
        return Ok(());
    }
    tell(rt, standby, &mut answers, &line[..len])?;
    answers.send(rt)
}

// Says what failed and the system's words for it, without the number that std puts behind them.
fn say(
    rt: &(impl Eprint + AllocGlobal),
    name: &str,
    what: &str,
    error: io::Error,
) -> io::Result<()> {
    match format!(in rt.alloc(); "{error}") {
        Ok(text) => match text.split_once(" (os error ") {
            Some((words, _)) => eprintln!(rt; "{name}: {what}: {words}"),
            None => eprintln!(rt; "{name}: {what}: {text}"),
        },
        Err(_) => eprintln!(rt; "{name}: {what}: {error}"),
    }
}

// Says what failed, where standard error takes it: the exit status. Of answers that nobody reads nothing is said.
fn told(rt: &(impl Eprint + AllocGlobal), name: &str, failure: Failure) -> ExitCode {
    match failure {
        Failure::Input(e) => {
            let _ = say(rt, name, "standard input", e);
            ExitCode::from(INPUT_FAILED)
        }
        Failure::Output(e) => {
            if matches!(e.kind(), ErrorKind::BrokenPipe) {
                return ExitCode::from(OUTPUT_CLOSED);
            }
            let _ = say(rt, name, "standard output", e);
            ExitCode::from(OUTPUT_FAILED)
        }
    }
}

// The whole program.
pub fn serve(rt: &(impl Input + Print + Eprint + AllocGlobal), says: Says) -> ExitCode {
    let mut words = [0u64; 642];
    let mut bytes = [0u8; 17280];
    let mut holds = [0u8; 22504];
    let mut line = [0u8; 16385];
    // The areas are as long as this shape asks, so this can't be.
    if store_areas::make(frames_line::shape(), &mut words, &bytes).is_err() {
        return ExitCode::SUCCESS;
    }
    // A new standby: nothing counted, no handle bound.
    let mut standby = Standby {
        says,
        counters: replica::new(),
        row: [standby_row::free_record(); 4],
        words: &mut words,
        bytes: &mut bytes,
        holds: &mut holds,
    };
    match run(rt, &mut standby, &mut line) {
        Ok(()) => ExitCode::SUCCESS,
        Err(failure) => told(rt, says.name(), failure),
    }
}

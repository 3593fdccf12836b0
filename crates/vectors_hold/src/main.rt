// Runs a script on a standby whose hold areas, and the words that say where their segments end, hold any content: what a record holds is set, and
// frames, most of them Wholes, LastWholes and Commits, go through the calls of `replica`. After each call it writes the answer, the records, a hash of each
// session and of the hold areas, and every word. What it must write is what the second reading writes (oracle/src/plain), which also makes the script. A
// line is a letter, a character, and what it takes: `n S C M HANDLES HOLD WORDS` a new standby over a new store, and how much is lent of the hold areas and
// the words, which keep what stood in them; `w I V` a word; `x AT DIGITS` bytes of the hold areas; `h INDEX LEN SUM` what a record holds;
// `f DIGITS` and `g DIGITS` a frame, held back by g; `F` and `G` with HANDLE COMMIT PART RESET SEQ N LENGTH one with N made Records, a Reset in front if RESET is 1;
// `l N` a flush, `d N` a drop, `p` a promotion, `u` an unchecked one.
#![tactic(auto)]

ghost use Rattle.std.specs.Prelude.{◌≡◌, length};

use frame_fields::{CommitNumber, Incarnation, Summary};
use frame_reader::Span;
use standby_row::Bound;
use standby_state::{Answer, Replica, Settings};
use std::io;
use std::str::SplitWhitespace;
use store_areas::Shape;
use store_log::fnv;
use vectors_script::{number, rest, small, words};

// The longest hold areas together, the most words, and the longest frame.
const HOLDS: usize = 524_288;

const ENDS: usize = 64;

const FRAME: usize = 262_144;

// The store's shape, what the standby keeps, and how much of the hold areas and the words is lent.
#[derive(Clone, Copy)]
struct Way {
    shape: Shape,
    replica: Replica,
    row: [Bound; 4],
    handles: usize,
    holds: usize,
    ends: usize,
}

impl Way {
    fn new(shape: Shape, handles: usize, holds: usize, ends: usize) -> Way {
        Way {
            shape,
            replica: replica::new(),
            row: [standby_row::free_record(); 4],
            handles: handles.min(4),
            holds: holds.min(HOLDS),
            ends: ends.min(ENDS),
        }
    }
}

// What a call left and answered.
struct Called {
    way: Way,
    answer: Answer,
}

// The hash h carried over a text's length and bytes.
fn text_hash(hash: u64, bytes: &[u8], text: Span) -> u64 {
    let hash = fnv::word(hash, u64::from(text.len));
    fnv::bytes(hash, frame_reader::slice(bytes, text))
}

// A hash over a session's six parts; the messages and their numbers are in last_outgoing.
fn summary_hash(bytes: &[u8], s: Summary) -> u64 {
    let h = fnv::word(fnv::START, s.next_outgoing);
    let h = fnv::word(h, s.next_incoming);
    let h = match s.in_flight {
        None => fnv::word(h, 0),
        Some(n) => fnv::word(fnv::word(h, 1), n),
    };
    let h = text_hash(h, bytes, s.created_at);
    let h = text_hash(h, bytes, s.marks);
    fnv::word(h, s.last_outgoing)
}

// The hash of the session at a place, 0 where there is none.
fn session_hash(words: &[u64], bytes: &[u8], shape: Shape, place: usize) -> u64 {
    match store_sessions::summary(words, bytes, shape, place, u64::MAX) {
        Ok(summary) => summary_hash(bytes, summary),
        Err(_) => 0,
    }
}

fn tell_record(rt: &impl Print, record: Bound) -> io::Result<()> {
    let CommitNumber(commit_no) = record.commit_no;
    print!(rt;
        " {} {} {} {commit_no} {} {};",
        record.used, record.handle, record.place, record.held_len, record.held_bytes
    )
}

// The answer, and what the call left.
fn tell(
    rt: &impl Print,
    called: Called,
    words: &[u64],
    bytes: &[u8],
    holds: &[u8],
    ends: &[u64],
) -> io::Result<Way> {
    let Called { way, answer } = called;
    let CommitNumber(commit_no) = answer.commit_no;
    print!(rt;
        "{}/{}/{} {commit_no}",
        answer.kind, answer.refusal, answer.reason
    )?;
    for record in way.row {
        tell_record(rt, record)?;
    }
    print!(rt;
        " sessions {} {} holds {} words",
        session_hash(words, bytes, way.shape, 0),
        session_hash(words, bytes, way.shape, 1),
        fnv::bytes(fnv::START, holds)
    )?;
    for word in ends {
        print!(rt; " {word}")?;
    }
    println!(rt; "")?;
    Ok(way)
}

// One of the calls, by a line's letter.
fn call(
    letter: u8,
    frame: &[u8],
    n: u64,
    words: &mut [u64],
    bytes: &mut [u8],
    holds: &mut [u8],
    ends: &mut [u64],
    way: Way,
) -> Called {
    let settings = Settings::new(way.shape, Incarnation(7), 3);
    let mut replica = way.replica;
    let mut room = way.row;
    let handles = way.handles.min(4);
    let row = &mut room[..handles];
    let k = &mut replica;
    let answer = match letter {
        b'g' | b'G' => replica::on_frame_held(k, row, words, bytes, holds, ends, frame, settings),
        b'l' => replica::flush(k, row, words, bytes, holds, ends, n, settings),
        b'd' => replica::disconnected_from(k, row, words, bytes, holds, ends, n, settings),
        b'p' => replica::promote(k, row, words, bytes, holds, ends, settings),
        b'u' => replica::promote_unchecked(k, row, words, bytes, holds, ends, settings),
        _ => replica::on_frame(k, row, words, bytes, holds, ends, frame, settings),
    };
    Called {
        way: Way {
            replica,
            row: room,
            ..way
        },
        answer,
    }
}

// Bytes behind what stands in the area, if there is room for them: where they end.
fn put(area: &mut [u8], at: usize, part: &[u8]) -> usize {
    let end = at.saturating_add(part.len());
    let Some(room) = area.get_mut(at..end) else {
        return at;
    };
    room.copy_from_slice(part);
    end
}

// A Record whose message has so many bytes, each the low one of its number.
fn put_record(area: &mut [u8], at: usize, seq: u64, len: u32) -> usize {
    let at = put(area, at, &[4]);
    let at = put(area, at, &seq.to_le_bytes());
    let at = put(area, at, &len.to_le_bytes());
    let end = at.saturating_add(len as usize);
    let Some(message) = area.get_mut(at..end) else {
        return at;
    };
    let [low, ..] = seq.to_le_bytes();
    for byte in message {
        *byte = low;
    }
    end
}

// A Batch with made Records: how long it is. One that is longer than the area is cut off.
fn made(area: &mut [u8], mut numbers: SplitWhitespace<'_>) -> usize {
    let handle = small(&mut numbers);
    let commit_no = number(&mut numbers);
    let part = vectors_script::byte(&mut numbers);
    let reset = number(&mut numbers) == 1;
    let seq = number(&mut numbers);
    let count = small(&mut numbers);
    let len = small(&mut numbers);
    let changes = if reset {
        count.saturating_add(1)
    } else {
        count
    };
    let at = put(area, 0, &[0, 0, 0, 0, 4]);
    let at = put(area, at, &handle.to_le_bytes());
    let at = put(area, at, &[0; 8]);
    let at = put(area, at, &commit_no.to_le_bytes());
    let at = put(area, at, &[part]);
    let at = put(area, at, &changes.to_le_bytes());
    let mut end = if reset { put(area, at, &[6]) } else { at };
    for i in 0..count {
        end = put_record(area, end, seq.wrapping_add(u64::from(i)), len);
    }
    let end = put(area, end, &[0; 4]);
    let [a, b, c, d, ..] = (end.saturating_sub(4) as u64).to_le_bytes();
    put(area, 0, &[a, b, c, d]);
    end
}

// A frame in digits: how long it is, none where it is longer than the area.
fn read(area: &mut [u8], digits: &[u8]) -> usize {
    let mut room = [0u8; 8192];
    let len = base_hex::read_line(digits, &mut room).unwrap_or(0);
    put(area, 0, room.get(..len).unwrap_or(&[]))
}

// The frame that a line gives, if it gives one.
fn frame_of(area: &mut [u8], line: &[u8]) -> usize {
    match line.first() {
        Some(b'f' | b'g') => read(area, rest(line)),
        Some(b'F' | b'G') => made(area, words(rest(line))),
        _ => 0,
    }
}

// A new standby over a new store.
fn begin(line: &[u8], words: &mut [u64], bytes: &[u8]) -> Way {
    let mut numbers = vectors_script::words(line);
    let places = small(&mut numbers);
    let cap = small(&mut numbers);
    let messages = small(&mut numbers);
    let shape = vectors_fill::make(words, bytes, places, cap, messages);
    let handles = number(&mut numbers) as usize;
    let hold = number(&mut numbers) as usize;
    let ends = number(&mut numbers) as usize;
    Way::new(shape, handles, handles.saturating_mul(hold), ends)
}

fn set_word(ends: &mut [u64], mut numbers: SplitWhitespace<'_>) {
    let at = number(&mut numbers) as usize;
    if let Some(word) = ends.get_mut(at) {
        *word = number(&mut numbers);
    }
}

fn set_bytes(holds: &mut [u8], mut numbers: SplitWhitespace<'_>) {
    let mut room = [0u8; 8192];
    let at = number(&mut numbers) as usize;
    let line = numbers.next().unwrap_or("").as_bytes();
    let len = base_hex::read_line(line, &mut room).unwrap_or(0);
    put(holds, at, room.get(..len).unwrap_or(&[]));
}

// What a record is said to hold.
fn set_held(way: Way, mut numbers: SplitWhitespace<'_>) -> Way {
    let mut row = way.row;
    let at = number(&mut numbers) as usize;
    if let Some(record) = row.get_mut(at) {
        let held_len = number(&mut numbers) as usize;
        let held_bytes = number(&mut numbers);
        *record = Bound {
            held_len,
            held_bytes,
            ..*record
        };
    }
    Way { row, ..way }
}

// One line, over what is lent of the hold areas and the words.
fn command(
    rt: &impl Print,
    line: &[u8],
    words: &mut [u64],
    bytes: &mut [u8],
    holds: &mut [u8],
    ends: &mut [u64],
    area: &mut [u8],
    way: Way,
) -> io::Result<Way> {
    let letter = line.first().copied().unwrap_or(0);
    let numbers = vectors_script::words(rest(line));
    match letter {
        b'n' => return Ok(begin(rest(line), words, bytes)),
        b'w' => set_word(ends, numbers),
        b'x' => set_bytes(holds, numbers),
        b'h' => return Ok(set_held(way, numbers)),
        _ => {
            let len = frame_of(area, line);
            let n = number(&mut vectors_script::words(rest(line)));
            let frame = area.get(..len).unwrap_or(&[]);
            let called = call(letter, frame, n, words, bytes, holds, ends, way);
            return tell(rt, called, words, bytes, holds, ends);
        }
    }
    Ok(way)
}

// Areas have a function each: where `main` makes them, the check of it runs out of its stack.
fn script_area() -> [u8; 524_288]
    ensures { 524288 ≡ length result }
{
    [0u8; 524_288]
}

fn hold_areas() -> [u8; HOLDS]
    ensures { 524288 ≡ length result }
{
    [0u8; HOLDS]
}

fn frame_area() -> [u8; FRAME]
    ensures { 262144 ≡ length result }
{
    [0u8; FRAME]
}

fn store_area() -> [u8; 300_000]
    ensures { 300000 ≡ length result }
{
    [0u8; 300_000]
}

fn main(rt: HostRuntime) -> io::Result<()> {
    let mut list = script_area();
    let script = vectors_script::read_script(&rt, &mut list)?;
    let mut words = [0u64; 162];
    let mut bytes = store_area();
    let mut holds = hold_areas();
    let mut area = frame_area();
    let mut ends = [0u64; ENDS];
    let mut way = Way::new(vectors_fill::NO_SHAPE, 0, 0, 0);
    for line in script.split_inclusive(|b| *b == b'\n') {
        let lent = way.holds.min(HOLDS);
        let told = way.ends.min(ENDS);
        way = command(
            &rt,
            line,
            &mut words,
            &mut bytes,
            &mut holds[..lent],
            &mut ends[..told],
            &mut area,
            way,
        )?;
    }
    Ok(())
}

// Runs a script on one hold area with the words of its row: what is held, of any content, and Wholes. What it must write is what the second reading
// writes (oracle/src/plain/segments.rs), which also makes the scripts. A line is a letter, a character, and what it takes: `n HELD PLACES PLACE WORDS` so
// many bytes held, the row's places, the one meant, and how many words are lent; `w I V` a word; `x AT DIGITS` bytes; `r AT N LENGTH` N Records with a made
// message each; `W DIGITS` and `R N LENGTH` a Whole with such changes; `Q` tells what is held.
#![tactic(auto)]

ghost use Rattle.std.specs.Prelude.{◌≡◌, length};

use frame_op::Op;
use frame_reader::Span;
use frame_stamp::Protocol;
use standby_segments::{HeldChanges, Segment};
use std::io;
use std::str::SplitWhitespace;
use vectors_script::{number, rest, words};

// The bytes of the hold area, the words lent, and room for the changes of a Whole.
const AREA: usize = 262_144;

// What a line may change beside the bytes and the words.
#[derive(Clone, Copy)]
struct State {
    held: usize,
    places: usize,
    place: usize,
    words: usize,
}

// A hash carried over a change: its kind, its numbers, its text.
fn hash_op(hash: u64, bytes: &[u8], op: Op) -> u64 {
    let (kind, first, second, text) = match op {
        Op::SetNextIncoming(seq) => (1u8, seq, 0, NO_TEXT),
        Op::SetNextIncomingInFlight { seq, in_flight } => (2u8, seq, in_flight, NO_TEXT),
        Op::SetInFlight(seq) => (3u8, seq, 0, NO_TEXT),
        Op::Record(seq, text) => (4u8, seq, 0, text),
        Op::RecordNone(seq) => (5u8, seq, 0, NO_TEXT),
        Op::Reset => (6u8, 0, 0, NO_TEXT),
        Op::SetCreatedAt(text) => (7u8, 0, 0, text),
        Op::SetMarks(text) => (8u8, 0, 0, text),
    };
    let hash = store_log::fnv::step(hash, u64::from(kind));
    let hash = store_log::fnv::bytes(hash, &first.to_le_bytes());
    let hash = store_log::fnv::bytes(hash, &second.to_le_bytes());
    store_log::fnv::bytes(hash, frame_reader::slice(bytes, text))
}

const NO_TEXT: Span = Span { at: 0, len: 0 };

// How many changes there are, and their hash.
#[derive(Clone, Copy)]
struct Told {
    count: u64,
    hash: u64,
}

fn tell_segment(told: Told, segment: &Segment) -> Told {
    let mut told = told;
    for op in segment.iter() {
        told = Told {
            count: told.count.wrapping_add(1),
            hash: hash_op(told.hash, segment.bytes, op),
        };
    }
    told
}

// Where the words of the row's place begin and end: they are divided evenly among the places.
fn own_words(len: usize, state: State) -> (usize, usize) {
    let share = len.checked_div(state.places).unwrap_or(0);
    let start = state.place.saturating_mul(share).min(len);
    (start, start.saturating_add(share).min(len))
}

// What is held.
fn tell(rt: &impl Print, bytes: &[u8], ends: &[u64], state: State) -> io::Result<()> {
    let (start, end) = own_words(ends.len(), state);
    let own = ends.get(start..end).unwrap_or(&[]);
    let bytes = bytes.get(..state.held).unwrap_or(&[]);
    let held = HeldChanges::new(Protocol::latest(), bytes, own);
    let open = held.open_segment();
    let used = standby_segments::held_length(Protocol::latest(), bytes, own);
    print!(rt;
        "held {} used {used} none {} fits {} {} open {} {}",
        state.held,
        held.is_none() as u8,
        held.fits(0) as u8,
        held.fits(1) as u8,
        open.index,
        open.from
    )?;
    let mut told = Told {
        count: 0,
        hash: store_log::fnv::START,
    };
    let mut segments: u64 = 0;
    for segment in held.segments() {
        segments = segments.wrapping_add(1);
        told = tell_segment(told, &segment);
    }
    print!(rt;
        " segments {segments} changes {} hash {} words",
        told.count, told.hash
    )?;
    for word in ends {
        print!(rt; " {word}")?;
    }
    println!(rt; "")
}

// A Record with a message of so many made bytes, if there is room for it: where it ends.
fn put_record(area: &mut [u8], at: usize, seq: u64, len: usize) -> usize {
    let end = at.saturating_add(13).saturating_add(len);
    let Some(room) = area.get_mut(at..end) else {
        return at;
    };
    for (i, byte) in room.iter_mut().enumerate() {
        let [low, ..] = (i as u64).wrapping_add(seq).to_le_bytes();
        *byte = low;
    }
    let [a, b, c, d, ..] = (len as u64).to_le_bytes();
    let [e, f, g, h, i, j, k, l] = seq.to_le_bytes();
    let head = [4, e, f, g, h, i, j, k, l, a, b, c, d];
    for (byte, value) in room.iter_mut().zip(head) {
        *byte = value;
    }
    end
}

// So many of them: where they end.
fn put_records(area: &mut [u8], at: usize, count: u64, len: usize) -> usize {
    let mut end = at;
    for seq in 0..count {
        end = put_record(area, end, seq, len);
    }
    end
}

// A Whole: its changes behind those held, where there is room.
fn hold(bytes: &mut [u8], ends: &mut [u64], state: State, run: &[u8]) -> State {
    let (first, last) = own_words(ends.len(), state);
    let Some(own) = ends.get_mut(first..last) else {
        return state;
    };
    let held = bytes.get(..state.held).unwrap_or(&[]);
    let used = standby_segments::held_length(Protocol::latest(), held, own);
    let end = used.saturating_add(run.len());
    let Some(room) = bytes.get_mut(used..end) else {
        return state;
    };
    room.copy_from_slice(run);
    standby_segments::close(own, state.held, end);
    State { held: end, ..state }
}

// The bytes that the next word has in digits: how many, at the start of the room; none where it has none.
fn digits(numbers: &mut SplitWhitespace<'_>, room: &mut [u8; 8192]) -> usize {
    let line = numbers.next().unwrap_or("").as_bytes();
    base_hex::read_line(line, room).unwrap_or(0)
}

// Bytes of the area, as they come from outside.
fn set_bytes(bytes: &mut [u8], mut numbers: SplitWhitespace<'_>) {
    let mut room = [0u8; 8192];
    let at = number(&mut numbers) as usize;
    let len = digits(&mut numbers, &mut room);
    let end = at.saturating_add(len);
    if let (Some(part), Some(src)) = (bytes.get_mut(at..end), room.get(..len)) {
        part.copy_from_slice(src);
    }
}

// Records in the area, as they come from outside.
fn set_records(bytes: &mut [u8], mut numbers: SplitWhitespace<'_>) {
    let at = number(&mut numbers) as usize;
    let count = number(&mut numbers);
    let len = number(&mut numbers) as usize;
    put_records(bytes, at, count, len);
}

// A Whole with the changes that the line has in digits.
fn hold_digits(
    bytes: &mut [u8],
    ends: &mut [u64],
    state: State,
    mut numbers: SplitWhitespace<'_>,
) -> State {
    let mut room = [0u8; 8192];
    let len = digits(&mut numbers, &mut room);
    hold(bytes, ends, state, room.get(..len).unwrap_or(&[]))
}

// A Whole with made Records.
fn hold_records(
    bytes: &mut [u8],
    ends: &mut [u64],
    room: &mut [u8],
    state: State,
    mut numbers: SplitWhitespace<'_>,
) -> State {
    let count = number(&mut numbers);
    let len = number(&mut numbers) as usize;
    let end = put_records(room, 0, count, len);
    hold(bytes, ends, state, room.get(..end).unwrap_or(&[]))
}

fn set_word(ends: &mut [u64], mut numbers: SplitWhitespace<'_>) {
    let at = number(&mut numbers) as usize;
    if let Some(word) = ends.get_mut(at) {
        *word = number(&mut numbers);
    }
}

// What a line begins with.
fn begun(mut numbers: SplitWhitespace<'_>) -> State {
    State {
        held: number(&mut numbers) as usize,
        places: number(&mut numbers) as usize,
        place: number(&mut numbers) as usize,
        words: number(&mut numbers) as usize,
    }
}

// One command over the words lent: what it leaves beside the bytes and the words.
fn command(
    rt: &impl Print,
    line: &[u8],
    bytes: &mut [u8],
    ends: &mut [u64],
    room: &mut [u8],
    state: State,
) -> io::Result<State> {
    let numbers = words(rest(line));
    match line.first() {
        Some(b'n') => return Ok(begun(numbers)),
        Some(b'w') => set_word(ends, numbers),
        Some(b'x') => set_bytes(bytes, numbers),
        Some(b'r') => set_records(bytes, numbers),
        Some(b'W') => return Ok(hold_digits(bytes, ends, state, numbers)),
        Some(b'R') => return Ok(hold_records(bytes, ends, room, state, numbers)),
        Some(b'Q') => tell(rt, bytes, ends, state)?,
        _ => {}
    }
    Ok(state)
}

// Room for the whole list. A function of its own: where `main` makes the area, the check of it runs out of its stack.
fn script_area() -> [u8; 1_048_576]
    ensures { 1048576 ≡ length result }
{
    [0u8; 1_048_576]
}

// The hold area, and room for the changes of a Whole.
fn area() -> [u8; AREA]
    ensures { 262144 ≡ length result }
{
    [0u8; AREA]
}

fn main(rt: HostRuntime) -> io::Result<()> {
    let mut list = script_area();
    let script = vectors_script::read_script(&rt, &mut list)?;
    let mut bytes = area();
    let mut room = area();
    let mut ends = [0u64; 32];
    let mut state = State {
        held: 0,
        places: 0,
        place: 0,
        words: 0,
    };
    for line in script.split_inclusive(|b| *b == b'\n') {
        let lent = state.words.min(32);
        state = command(&rt, line, &mut bytes, &mut ends[..lent], &mut room, state)?;
    }
    Ok(())
}

// Sends a session A whole from one store to a standby over another, whose session is B, and damages, repeats and drops frames on the
// way. After each frame that the standby is given it writes the answer (kind, refusal, reason) and which session the standby then has: A,
// B or neither, by a hash over all six parts. What it must write was recorded from the Rust by tests/make/copy_vectors.py, which also wrote
// the script, and what it must write in version 2. A line is a letter, a character, and what it takes:
// `n S C M` two new stores of S places and a new standby, `o:TEXT` opens A with this target; a change of A as vectors_fill has them;
// `h:DIGITS` a frame for the standby; `w HANDLE EPOCH LAST` begins the sending in the version that the standby's connection speaks, `W` on the branch line: what the
// standby has now is B;
// `f` takes the next frame; `=` gives it to the standby; `x AT N` gives it with N added to its byte AT.
// The areas and their shape are not one struct, as in vectors_fill.
#![tactic(auto)]

use active::{Line, Sending};
use base_refusals::Refusal;
use frame_fields::{CommitNumber, Epoch, Incarnation, Summary};
use frame_reader::Span;
use frame_stamp::Protocol;
use standby_row::Bound;
use standby_state::{Answer, Replica, Settings};
use std::io;
use store_areas::Shape;
use store_log::fnv;
use vectors_script::{Fields, print_refusal, rest, text};

// The stores' shape, what the standby keeps, the sending, the length of the frame that it gave last, and B's hash.
#[derive(Clone, Copy)]
struct Way {
    shape: Shape,
    replica: Replica,
    row: [Bound; 4],
    sending: Sending,
    len: usize,
    before: Option<u64>,
}

impl Way {
    // A new standby, and no sending yet.
    fn new(shape: Shape) -> Way {
        Way {
            shape,
            replica: replica::new(),
            row: [standby_row::free_record(); 4],
            sending: Sending {
                version: Protocol::FIRST,
                place: 0,
                handle: 0,
                epoch: Epoch(0),
                last: CommitNumber(0),
                from: None,
                line: Line::HeadOffice,
            },
            len: 0,
            before: None,
        }
    }
}

// The hash h carried over a text's length and bytes.
fn text_hash(hash: u64, bytes: &[u8], text: Span) -> u64 {
    let hash = fnv::word(hash, u64::from(text.len));
    fnv::bytes(hash, frame_reader::slice(bytes, text))
}

// A hash over a session's six parts; the messages and their numbers are in last_outgoing.
fn summary_hash(bytes: &[u8], s: Summary) -> u64 {
    let h = fnv::word(fnv::START, s.next_outgoing);
    let h = fnv::word(h, s.next_incoming);
    let h = match s.in_flight {
        None => fnv::word(h, 0),
        Some(n) => fnv::word(fnv::word(h, 1), n),
    };
    let h = text_hash(h, bytes, s.created_at);
    let h = text_hash(h, bytes, s.marks);
    fnv::word(h, s.last_outgoing)
}

// The hash of a store's first session, if it has one.
fn hash(words: &[u64], bytes: &[u8], shape: Shape) -> Option<u64> {
    let summary = store_sessions::summary(words, bytes, shape, 0, u64::MAX).ok()?;
    Some(summary_hash(bytes, summary))
}

// The answer, and which session the standby has, by the hashes of its own, of A and of B; none is told before a sending begins.
fn print_answer(
    rt: &impl Print,
    answer: Answer,
    now: Option<u64>,
    a: Option<u64>,
    b: Option<u64>,
) -> io::Result<()> {
    let which = if b.is_none() {
        ""
    } else if now == a {
        " A"
    } else if now == b {
        " B"
    } else {
        " neither"
    };
    println!(rt;
        "{}/{}/{}{which}",
        answer.kind, answer.refusal, answer.reason
    )
}

// Gives the standby a frame; a is A's hash.
fn hand(
    rt: &impl Print,
    frame: &[u8],
    words: &mut [u64],
    bytes: &mut [u8],
    holds: &mut [u8],
    ends: &mut [u64],
    way: Way,
    a: Option<u64>,
) -> io::Result<Way> {
    let settings = Settings::new(way.shape, Incarnation(7), 0);
    let mut replica = way.replica;
    let mut row = way.row;
    let answer = replica::on_frame(
        &mut replica,
        &mut row,
        words,
        bytes,
        holds,
        ends,
        frame,
        settings,
    );
    print_answer(rt, answer, hash(words, bytes, way.shape), a, way.before)?;
    Ok(Way {
        replica,
        row,
        ..way
    })
}

// Gives the standby a frame in digits.
fn hand_digits(
    rt: &impl Print,
    digits: &[u8],
    words: &mut [u64],
    bytes: &mut [u8],
    holds: &mut [u8],
    ends: &mut [u64],
    way: Way,
    a: Option<u64>,
) -> io::Result<Way> {
    let mut room = [0u8; 8192];
    match base_hex::read_line(digits, &mut room) {
        Some(len) => hand(rt, &room[..len], words, bytes, holds, ends, way, a),
        None => Ok(way),
    }
}

// Gives the standby the frame in the area with n added to its byte `at`, which stays as it was.
fn hand_with(
    rt: &impl Print,
    at: usize,
    n: u8,
    out: &mut [u8],
    words: &mut [u64],
    bytes: &mut [u8],
    holds: &mut [u8],
    ends: &mut [u64],
    way: Way,
    a: Option<u64>,
) -> io::Result<Way> {
    let Some(frame) = out.get_mut(..way.len) else {
        return Ok(way);
    };
    let good = frame.get(at).copied();
    if let Some(byte) = frame.get_mut(at) {
        *byte = byte.wrapping_add(n);
    }
    let next = hand(rt, frame, words, bytes, holds, ends, way, a)?;
    if let (Some(byte), Some(good)) = (frame.get_mut(at), good) {
        *byte = good;
    }
    Ok(next)
}

// Begins the sending, on the branch line by a capital letter; `before` is B's hash.
fn begin(
    rt: &impl Print,
    line: &[u8],
    words: &[u64],
    bytes: &[u8],
    way: Way,
    before: Option<u64>,
) -> io::Result<Way> {
    let mut fields = Fields::of(rest(line));
    let on = if line.starts_with(b"W") {
        Line::Branch
    } else {
        Line::HeadOffice
    };
    let version = Protocol::of_byte(way.replica.version2).number();
    let handle = fields.small();
    let epoch = Epoch(fields.number());
    let last = CommitNumber(fields.number());
    match Sending::begin(on, version, way.shape, words, bytes, 0, handle, epoch, last) {
        Ok(sending) => Ok(Way {
            sending,
            before,
            ..way
        }),
        Err(Refusal::NumbersPast | Refusal::RulesBroken) => Ok(Way { before, ..way }),
        Err(refusal) => {
            print_refusal(rt, refusal.number())?;
            Ok(way)
        }
    }
}

// Takes the next frame into the area.
fn take(rt: &impl Print, words: &[u64], bytes: &[u8], out: &mut [u8], way: Way) -> io::Result<Way> {
    match way.sending.send_whole(way.shape, words, bytes, out) {
        Ok(Some(sent)) => {
            return Ok(Way {
                sending: sent.next,
                len: sent.len,
                ..way
            });
        }
        Ok(None) => println!(rt; "done")?,
        Err(refusal) => print_refusal(rt, refusal.number())?,
    }
    Ok(way)
}

// Two new stores and a new standby.
fn make(
    line: &[u8],
    words_a: &mut [u64],
    bytes_a: &[u8],
    words_b: &mut [u64],
    bytes_b: &[u8],
) -> Way {
    let mut fields = Fields::of(rest(line));
    let places = fields.small();
    let (cap, messages) = (fields.small(), fields.small());
    let shape = vectors_fill::make(words_a, bytes_a, places, cap, messages);
    c_store::store_make(words_b, bytes_b, shape);
    Way::new(shape)
}

// One command.
fn command(
    rt: &impl Print,
    line: &[u8],
    words_a: &mut [u64],
    bytes_a: &mut [u8],
    words_b: &mut [u64],
    bytes_b: &mut [u8],
    holds: &mut [u8],
    ends: &mut [u64],
    out: &mut [u8],
    way: Way,
) -> io::Result<Way> {
    let shape = way.shape;
    let a = hash(words_a, bytes_a, shape);
    match (line.first(), text(line)) {
        (Some(b'n'), _) => Ok(make(line, words_a, bytes_a, words_b, bytes_b)),
        (Some(b'w' | b'W'), _) => {
            let before = hash(words_b, bytes_b, shape);
            begin(rt, line, words_a, bytes_a, way, before)
        }
        (Some(b'f'), _) => take(rt, words_a, bytes_a, out, way),
        (Some(b'='), _) => hand_with(rt, 0, 0, out, words_b, bytes_b, holds, ends, way, a),
        (Some(b'x'), _) => {
            let mut fields = Fields::of(rest(line));
            let at = fields.number() as usize;
            let n = fields.byte();
            hand_with(rt, at, n, out, words_b, bytes_b, holds, ends, way, a)
        }
        (Some(b'h'), Some(digits)) => {
            hand_digits(rt, digits, words_b, bytes_b, holds, ends, way, a)
        }
        (Some(b'o'), Some(target)) => {
            vectors_fill::open(words_a, bytes_a, shape, target);
            Ok(way)
        }
        (Some(b'm' | b'l' | b'g' | b'b' | b't' | b'k'), Some(_)) => {
            vectors_fill::change(words_a, bytes_a, shape, 0, line, out);
            Ok(way)
        }
        _ => Ok(way),
    }
}

// The script in areas for stores with one message more than a full batch has, and for the frames of that.
fn run(
    rt: &impl Print,
    script: &[u8],
    words_a: &mut [u64; 162],
    bytes_a: &mut [u8; 1_050_000],
    words_b: &mut [u64; 162],
    bytes_b: &mut [u8; 1_050_000],
    holds: &mut [u8; 4_200_000],
    ends: &mut [u64; 64],
    out: &mut [u8; 1_050_000],
) -> io::Result<()> {
    let mut way = Way::new(vectors_fill::NO_SHAPE);
    for line in script.split_inclusive(|b| *b == b'\n') {
        way = command(
            rt, line, words_a, bytes_a, words_b, bytes_b, holds, ends, out, way,
        )?;
    }
    Ok(())
}

fn main(rt: HostRuntime) -> io::Result<()> {
    let mut room = [0u8; 65_536];
    let script = vectors_script::read_script(&rt, &mut room)?;
    let mut words_a = [0u64; 162];
    let mut bytes_a = [0u8; 1_050_000];
    let mut words_b = [0u64; 162];
    let mut bytes_b = [0u8; 1_050_000];
    let mut holds = [0u8; 4_200_000];
    let mut ends = [0u64; 64];
    let mut out = [0u8; 1_050_000];
    run(
        &rt,
        script,
        &mut words_a,
        &mut bytes_a,
        &mut words_b,
        &mut bytes_b,
        &mut holds,
        &mut ends,
        &mut out,
    )
}

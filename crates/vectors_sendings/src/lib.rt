// Sendings of a session, and what they give in text.
// The state is new in each turn, the store and the area are not, so they come apart.
#![tactic(auto)]

use active::{Line, Sending, Sent};
use base_refusals::Refusal;
use frame_fields::{CommitNumber, Epoch};
use std::io;
use store_areas::Shape;
use store_log::fnv;

// A store as it is read.
#[derive(Clone, Copy)]
pub struct Stored<'a> {
    pub words: &'a [u64],
    pub bytes: &'a [u8],
    pub shape: Shape,
}

// What a call of a sending answers: a frame, done, or a refusal.
type Answer = Result<Option<Sent>, Refusal>;

// A frame of at most 512 bytes in hexadecimal digits, a longer one as its length and its FNV-1a.
fn print_frame(rt: &impl Print, frame: &[u8]) -> io::Result<()> {
    let len = frame.len();
    if 512 < len {
        let hash = fnv::bytes(fnv::START, frame);
        return println!(rt; "{len}:{hash:016x}");
    }
    let mut digits = [0u8; 1024];
    base_hex::put_hex(frame, &mut digits);
    rt.write_all(&digits[..2 * len])?;
    println!(rt; "")
}

// One call, with what it gave in text.
fn turn(rt: &impl Print, state: Sending, stored: Stored, out: &mut [u8]) -> io::Result<Answer> {
    let answer = state.send_whole(stored.shape, stored.words, stored.bytes, out);
    match answer {
        Ok(Some(sent)) => print_frame(rt, out.get(..sent.len).unwrap_or(&[]))?,
        Ok(None) => println!(rt; "done")?,
        Err(refusal) => vectors_script::print_refusal(rt, refusal.number())?,
    }
    Ok(answer)
}

// One call that lends `short` bytes, and after a 9 the same call again with the whole area.
fn turn_again(
    rt: &impl Print,
    state: Sending,
    stored: Stored,
    out: &mut [u8],
    short: usize,
) -> io::Result<Answer> {
    if short < out.len() {
        let answer = turn(rt, state, stored, &mut out[0..short])?;
        if !matches!(answer, Err(Refusal::NoRoom)) {
            return Ok(answer);
        }
        return turn(rt, state, stored, out);
    }
    turn(rt, state, stored, out)
}

// Calls until one gives no frame, at most a hundred.
fn turns(
    rt: &impl Print,
    state: Sending,
    stored: Stored,
    out: &mut [u8],
    short: usize,
) -> io::Result<Sending> {
    let mut state = state;
    for _ in 0..100 {
        let Ok(Some(sent)) = turn_again(rt, state, stored, out, short)? else {
            return Ok(state);
        };
        state = sent.next;
    }
    Ok(state)
}

// A sending on a line, in a version, to its end, and one call after it.
pub fn whole(
    rt: &impl Print,
    line: Line,
    version: u16,
    stored: Stored,
    place: usize,
    handle: u32,
    epoch: u64,
    last: u64,
    out: &mut [u8],
    short: usize,
) -> io::Result<()> {
    let epoch = Epoch(epoch);
    match Sending::begin(
        line,
        version,
        stored.shape,
        stored.words,
        stored.bytes,
        place,
        handle,
        epoch,
        CommitNumber(last),
    ) {
        Ok(s) => {
            let end = turns(rt, s, stored, out, short)?;
            let _ = turn(rt, end, stored, out)?;
            Ok(())
        }
        Err(refusal) => vectors_script::print_refusal(rt, refusal.number()),
    }
}

// A call with a state that no beginning gave.
pub fn odd(
    rt: &impl Print,
    line: Line,
    version: u16,
    stored: Stored,
    place: usize,
    last: u64,
    from: u64,
    out: &mut [u8],
) -> io::Result<()> {
    let s = Sending {
        version,
        place,
        handle: 1,
        epoch: Epoch(0),
        last: CommitNumber(last),
        from: Some(from),
        line,
    };
    let _ = turn(rt, s, stored, out)?;
    Ok(())
}

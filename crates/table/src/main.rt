// Shows what a standby holds after a list of frames, one line of lower-case hexadecimal digits each: the standby is that of the program `frames`.
// Each session takes five lines, and more where its key is long.
#![tactic(auto)]

use frames_line::LineAnswer;
use standby_row::Bound;
use standby_state::Replica;
use std::io;

// The standby takes one line; its answer isn't shown.
fn take_line(
    counters: Replica,
    row: [Bound; 4],
    words: &mut [u64],
    bytes: &mut [u8],
    holds: &mut [u8],
    line: &[u8],
) -> LineAnswer {
    let mut buf = [0u8; 8192];
    let mut text = [0u8; 16384];
    let line = line.strip_suffix(b"\n").unwrap_or(line);
    frames_line::answer_line(
        counters, row, words, bytes, holds, line, &mut buf, &mut text,
    )
}

// Every session in use, as it is shown.
fn show_sessions(rt: &impl Print, words: &[u64], bytes: &[u8]) -> io::Result<()> {
    let mut area = [0u8; 2_000];
    for place in 0..4 {
        if let Ok(len) = screen_session::put_session(
            words,
            bytes,
            frames_line::shape(),
            place,
            &mut area,
        ) {
            rt.write_all(area.get(..len).unwrap_or(&[]))?;
        }
    }
    Ok(())
}

fn main(rt: HostRuntime) -> io::Result<()> {
    let mut words = [0u64; 642];
    let mut bytes = [0u8; 17280];
    let mut holds = [0u8; 22504];
    let mut room = [0u8; 65_536];
    // The areas are as long as this shape asks, so this can't fail.
    let _ = store_areas::make(frames_line::shape(), &mut words, &bytes);
    let mut counters = replica::new();
    let mut row = [standby_row::free_record(); 4];
    let script = vectors_script::read_script(&rt, &mut room)?;
    for line in script.split_inclusive(|b| *b == b'\n') {
        let taken = take_line(counters, row, &mut words, &mut bytes, &mut holds, line);
        counters = taken.replica;
        row = taken.row;
    }
    show_sessions(&rt, &words, &bytes)
}

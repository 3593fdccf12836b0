// Reads frames, one line of digits each, and writes for each what reading it gives: `more`, `R` with the refusal's number and values, or the
// bytes taken and the frame written again. What it must write is what oracle/rust-frames writes; the lines come from tests/make/frame_vectors.py.
#![tactic(auto)]

ghost use Rattle.std.specs.Prelude.{◌≡◌, length};

use base_refusals::Refusal;
use frame::{Field, Frame, FrameError};
use frame_stamp::Protocol;
use std::io;

// A refusal's number, and its values on the same line; the fields' names are those that oracle/rust-frames writes.
fn print_fault(rt: &impl Print, error: FrameError) -> io::Result<()> {
    let number = error.number();
    match error {
        FrameError::TooLong(len) => println!(rt; "R {number} {len}"),
        FrameError::Unknown(field, byte) => {
            let name = match field {
                Field::FrameKind => "kind",
                Field::Part => "part",
                Field::Refusal => "refusal",
                Field::Change => "change",
            };
            println!(rt; "R {number} {name} {byte}")
        }
        FrameError::Truncated | FrameError::Invalid(_) => vectors_script::print_refusal(rt, number),
    }
}

// A frame that was read from src, written again in digits.
fn print_frame(rt: &impl Print, frame: Frame, src: &[u8]) -> io::Result<()> {
    let mut out = [0u8; 8192];
    match frame.encode(Protocol::first(), src, &mut out) {
        Ok(len) => {
            let mut digits = [0u8; 16_384];
            // The frame lies in the area, so the least is its length.
            let written = &out[..len.min(out.len())];
            base_hex::put_hex(written, &mut digits);
            rt.write_all(&digits[..2 * written.len()])?;
            println!(rt; "")
        }
        Err(error) => println!(rt; "not written: {}", Refusal::from(error).number()),
    }
}

// What reading gives.
fn print_reading(rt: &impl Print, src: &[u8]) -> io::Result<()> {
    match Frame::decode(Protocol::first(), src) {
        Ok(None) => println!(rt; "more"),
        Ok(Some((frame, used))) => {
            print!(rt; "{used} ")?;
            print_frame(rt, frame, src)
        }
        Err(error) => print_fault(rt, error),
    }
}

// The answer to a line; an empty line is an empty frame.
fn answer(rt: &impl Print, line: &[u8]) -> io::Result<()> {
    let mut bytes = [0u8; 8192];
    let line = line.strip_suffix(b"\n").unwrap_or(line);
    if line.is_empty() {
        return print_reading(rt, b"");
    }
    match base_hex::read_line(line, &mut bytes) {
        Some(len) => print_reading(rt, &bytes[..len]),
        None => {
            print!(rt; "? ")?;
            rt.write_all(line)?;
            println!(rt; "")
        }
    }
}

// Room for the whole list. A function of its own: where `main` makes the area, the check of it runs out of its stack.
fn area() -> [u8; 1_048_576]
    ensures { 1048576 ≡ length result }
{
    [0u8; 1_048_576]
}

fn main(rt: HostRuntime) -> io::Result<()> {
    let mut room = area();
    let script = vectors_script::read_script(&rt, &mut room)?;
    for line in script.split_inclusive(|b| *b == b'\n') {
        answer(&rt, line)?;
    }
    Ok(())
}

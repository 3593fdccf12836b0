// Runs recorded sets of copies, a line a set; tests/make/choice_vectors.py wrote the script and what must be written.
// A line is `C` and ten numbers for each of five copies: whether it is listed, whether it is checked, its epoch, how many sessions are in
// use, and of three sessions the key and the next outgoing number. A fourth session in use breaks the store's rules.
#![tactic(auto)]

use base_refusals::Refusal;
use frame_fields::Epoch;
use standby_choice::{CopyState, LentCopy};
use std::io;
use store_areas::{COUNT_WORDS, Shape};
use store_place::byte::RING;
use store_place::word;
use vectors_script::{Fields, rest};

const SHAPE: Shape = Shape {
    places: 3,
    bytes: 0,
    messages: 0,
};

// The copy whose numbers come next; its store is laid out in the two areas.
fn copy<'a>(
    fields: &mut Fields<'_>,
    words: &'a mut [u64; 114],
    bytes: &'a mut [u8; 672],
) -> LentCopy<'a> {
    let listed = fields.byte();
    let checked = fields.byte();
    let epoch = Epoch(fields.number());
    words[0] = fields.number();
    for place in 0..3 {
        let at = COUNT_WORDS + word::ENTRIES * place;
        bytes[RING * place] = fields.byte();
        words[at + word::NEXT_OUTGOING] = fields.number();
        words[at + word::BEGIN_LEN] = 1;
    }
    LentCopy {
        copy: CopyState {
            listed,
            checked,
            epoch,
            shape: SHAPE,
        },
        words,
        bytes,
    }
}

// One set.
fn choose(line: &[u8]) -> Result<usize, Refusal> {
    let mut fields = Fields::of(rest(line));
    let (mut w0, mut b0) = ([0; 114], [0; 672]);
    let (mut w1, mut b1) = ([0; 114], [0; 672]);
    let (mut w2, mut b2) = ([0; 114], [0; 672]);
    let (mut w3, mut b3) = ([0; 114], [0; 672]);
    let (mut w4, mut b4) = ([0; 114], [0; 672]);
    standby_choice::choose(&[
        copy(&mut fields, &mut w0, &mut b0),
        copy(&mut fields, &mut w1, &mut b1),
        copy(&mut fields, &mut w2, &mut b2),
        copy(&mut fields, &mut w3, &mut b3),
        copy(&mut fields, &mut w4, &mut b4),
    ])
}

fn main(rt: HostRuntime) -> io::Result<()> {
    let mut room = [0u8; 65_536];
    let script = vectors_script::read_script(&rt, &mut room)?;
    for line in script.split_inclusive(|b| *b == b'\n') {
        match choose(line) {
            Ok(copy) => println!(rt; "{copy}")?,
            Err(refusal) => vectors_script::print_refusal(&rt, refusal.number())?,
        }
    }
    Ok(())
}

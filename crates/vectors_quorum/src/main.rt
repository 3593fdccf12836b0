// Replays recorded lines on an active with up to five standbys. What it must write was made by tests/make/quorum_vectors.py, which keeps
// the whole history and counts over it. `n k` makes the state anew (written: nothing, or a refusal); `bind H`, `sent H N`,
// `ack MEMBER H N`, `stale MEMBER`, `figure H` as in docs/SCRIPTS.md; `lend 0` lends an area one word too short from
// then on, `lend 1` the first one again; `word I V` sets a word, for a state handed in with others.
#![tactic(auto)]

use base_refusals::Refusal;
use frame_fields::CommitNumber;
use std::io;
use vectors_script::{Fields, print_done, print_refusal};

fn print_figure(rt: &impl Print, figure: Result<CommitNumber, Refusal>) -> io::Result<()> {
    match figure {
        Ok(number) => println!(rt; "{}", number.0),
        Err(refusal) => print_refusal(rt, refusal.number()),
    }
}

fn make(rt: &impl Print, area: &mut [u64], members: u64, needed: u64) -> io::Result<()> {
    match active_quorum::make(area, members, needed) {
        Ok(()) => Ok(()),
        Err(refusal) => print_refusal(rt, refusal.number()),
    }
}

// One line on the area that is lent, which another line may replace: the handle, the area and the line stay apart. A name's first letters say which it is.
fn replay(rt: &impl Print, area: &mut [u64], line: &[u8]) -> io::Result<()> {
    let [first, second, ..] = *line else {
        return Ok(());
    };
    let mut fields = Fields::behind_name(line);
    match (first, second) {
        (0..=b'`', _) => {
            let members = vectors_script::digits(line);
            make(rt, area, members, fields.number())
        }
        (b'b', _) => print_done(rt, active_quorum::bind(area, fields.small())),
        (b'f', _) => print_figure(rt, active_quorum::figure(area, fields.small())),
        (b'a', _) => {
            let member = fields.number() as usize;
            let handle = fields.small();
            let held = CommitNumber(fields.number());
            print_done(rt, active_quorum::acknowledged(area, member, handle, held))
        }
        (_, b'e') => {
            let handle = fields.small();
            let sent = CommitNumber(fields.number());
            print_done(rt, active_quorum::sent(area, handle, sent))
        }
        _ => {
            let member = fields.number() as usize;
            print_done(rt, active_quorum::stale_epoch(area, member))
        }
    }
}

// Each program has its own areas; what the programs do alike is `replay_lent`.
fn main(rt: HostRuntime) -> io::Result<()> {
    let mut room = [0u8; 65_536];
    let script = vectors_script::read_script(&rt, &mut room)?;
    let mut area = [0u64; 2600];
    let mut short = [0u64; 2563];
    vectors_script::replay_lent(&rt, script, &mut area, &mut short, |rt, area, line| {
        replay(rt, area, line)
    })
}

// Runs a script of pushes onto lag queues. What it must write was recorded from the Rust by tests/make/active_vectors.py, which also wrote
// the script. `Q MAX_LAG DRAINED LAST..` is a new queue with a push for each LAST, as in call scripts; `q MAX_LAG DRAINED COUNT LAST..`
// one in which COUNT zeros wait.
#![tactic(auto)]

use active_lag::ReplicatedLog;
use std::io;
use vectors_script::{Fields, digits, rest};

// The numbers that went: the first of those that waited, and then the one pushed.
fn print_gone(rt: &impl Print, queue: ReplicatedLog, last: u64, gone: usize) -> io::Result<()> {
    let waiting = queue.queued.iter().take(queue.count).copied();
    for (i, number) in waiting.chain(std::iter::once(last)).take(gone).enumerate() {
        if i == 0 {
            print!(rt; "{number}")?;
        } else {
            print!(rt; ",{number}")?;
        }
    }
    println!(rt; "")
}

// One push.
fn push(
    rt: &impl Print,
    queue: ReplicatedLog,
    last: u64,
    max_lag: u64,
) -> io::Result<ReplicatedLog> {
    match queue.queue(last, max_lag) {
        Err(refusal) => {
            vectors_script::print_refusal(rt, refusal.number())?;
            Ok(queue)
        }
        Ok(pushed) => {
            let through = pushed.log.drained_through;
            let waiting = pushed.log.count;
            print!(rt;
                "drained={} through={through} waiting={waiting} numbers=",
                pushed.drained
            )?;
            print_gone(rt, queue, last, pushed.drained)?;
            Ok(pushed.log)
        }
    }
}

// A new queue, or one in which so many zeros wait, and a push for each further number of the line.
fn run_line(rt: &impl Print, line: &[u8]) -> io::Result<()> {
    let mut fields = Fields::of(rest(line));
    let max_lag = fields.number();
    let mut queue = ReplicatedLog::new(fields.number());
    if !line.starts_with(b"Q") {
        queue.count = fields.number() as usize;
    }
    for field in fields.left.split_inclusive(|b| *b == b' ') {
        queue = push(rt, queue, digits(field), max_lag)?;
    }
    Ok(())
}

fn main(rt: HostRuntime) -> io::Result<()> {
    let mut room = [0u8; 65_536];
    let script = vectors_script::read_script(&rt, &mut room)?;
    for line in script.split_inclusive(|b| *b == b'\n') {
        run_line(&rt, line)?;
    }
    Ok(())
}

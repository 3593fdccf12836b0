// Runs scripts of questions and attempts on leases, one script after the other. What it must write was recorded from the Rust by
// tests/make/lease_vectors.py, which also wrote the scripts. A script's first line is the duration and the time of making; then
// `due T`, and `try START OUTCOME ok|failed|deposed`.
#![tactic(auto)]

use c_lease::{Due, word};
use std::io;
use vectors_script::{Fields, print_refusal};

// The byte of an outcome, by the first letter of its name.
fn outcome(name: &[u8]) -> u8 {
    match name.first() {
        Some(b'o') => 0,
        Some(b'f') => 1,
        _ => 2,
    }
}

fn print_due(rt: &impl Print, answer: Due) -> io::Result<()> {
    if answer.refusal != 0 {
        print_refusal(rt, answer.refusal)
    } else {
        println!(rt; "{}", answer.due)
    }
}

// An attempt's refusal, or until when the lease is held or was.
fn print_tried(rt: &impl Print, refusal: u8, lease: &[u64; 4]) -> io::Result<()> {
    let until = lease[word::UNTIL];
    if refusal != 0 {
        print_refusal(rt, refusal)
    } else if lease[word::LOST] == 0 {
        println!(rt; "held {until}")
    } else {
        println!(rt; "lost {until}")
    }
}

// One line on a lease: its first letter says what it is.
fn call(rt: &impl Print, line: &[u8], lease: &mut [u64; 4]) -> io::Result<()> {
    let mut fields = Fields::behind_name(line);
    match line.first() {
        Some(b'd') => print_due(rt, c_lease::wz_lease_renewal(lease, fields.number())),
        Some(b't') => {
            let started = fields.number();
            let time = fields.number();
            let outcome = outcome(fields.field());
            let refusal = c_lease::wz_lease_attempt(lease, started, time, outcome);
            print_tried(rt, refusal, lease)
        }
        _ => {
            let duration = vectors_script::digits(line);
            c_lease::wz_lease_new(lease, duration, fields.number());
            Ok(())
        }
    }
}

fn main(rt: HostRuntime) -> io::Result<()> {
    let mut room = [0u8; 65_536];
    let mut lease = [0; 4];
    let script = vectors_script::read_script(&rt, &mut room)?;
    for line in script.split_inclusive(|b| *b == b'\n') {
        call(&rt, line, &mut lease)?;
    }
    Ok(())
}

// Replays recorded lines on the books of a catch-up. What it must write was recorded from the Rust by tests/make/books_vectors.py, which
// also wrote the lines. `make` makes the books anew (written: nothing, or a refusal); the calls are those of docs/SCRIPTS.md; `lend 0` lends
// an area one word too short from then on, `lend 1` the first one again; `word I V` sets a word, for an area handed in with others.
#![tactic(auto)]

use active_books::Opened;
use base_refusals::Refusal;
use frame_fields::Incarnation;
use std::io;
use vectors_script::{Fields, print_done, print_refusal};

fn print_opened(rt: &impl Print, answer: Result<Opened, Refusal>) -> io::Result<()> {
    match answer {
        Ok(Opened::Done) => println!(rt; "ok"),
        Ok(Opened::Wait) => println!(rt; "wait"),
        Err(refusal) => print_refusal(rt, refusal.number()),
    }
}

fn print_picked(rt: &impl Print, answer: Result<Option<u64>, Refusal>) -> io::Result<()> {
    match answer {
        Ok(Some(session)) => println!(rt; "{session}"),
        Ok(None) => println!(rt; "none"),
        Err(refusal) => print_refusal(rt, refusal.number()),
    }
}

fn print_says(rt: &impl Print, answer: Result<bool, Refusal>) -> io::Result<()> {
    match answer {
        Ok(yes) => println!(rt; "{}", u8::from(yes)),
        Err(refusal) => print_refusal(rt, refusal.number()),
    }
}

// A call with a listing: the line's numbers from here on, after the incarnation where the call has one.
fn call_listed(
    rt: &impl Print,
    area: &mut [u64],
    name: &str,
    mut fields: Fields<'_>,
) -> io::Result<()> {
    let incarnation = if name == "all" {
        Incarnation(0)
    } else {
        Incarnation(fields.number())
    };
    let mut room = [0u64; 600];
    let listing = fields.numbers(&mut room);
    match name {
        "all" => print_done(rt, active_books_pass::all_fall_behind(area, listing)),
        "next" => print_picked(
            rt,
            active_books_pass::next_to_catch_up(area, listing, incarnation),
        ),
        _ => print_says(
            rt,
            active_books_pass::all_compared(area, listing, incarnation),
        ),
    }
}

// A call on one session, or on none.
fn call_one(
    rt: &impl Print,
    area: &mut [u64],
    name: &str,
    mut fields: Fields<'_>,
) -> io::Result<()> {
    let first = fields.number();
    let incarnation = Incarnation(fields.number());
    match name {
        "behind" => print_done(rt, active_books::fall_behind(area, first)),
        "open" => print_opened(rt, active_books::opening(area, first)),
        "is" => print_says(rt, active_books::is_behind(area, first)),
        "close" => print_done(rt, active_books::closed(area, first)),
        "compared" => print_done(rt, active_books::caught_up(area, first, incarnation)),
        "acked" => print_done(rt, active_books::acknowledged(area, Incarnation(first))),
        "pass" => print_done(
            rt,
            active_books_pass::behind_unless_compared_open(area, Incarnation(first)),
        ),
        _ => print_says(rt, active_books::ended(area, first, incarnation)),
    }
}

// The name of the call that a line asks for: its first letters say which.
fn name(line: &[u8]) -> &'static str {
    match line {
        [b'a', b'l', ..] => "all",
        [b'a', ..] => "acked",
        [b'c', b'h', ..] => "check",
        [b'c', b'l', ..] => "close",
        [b'c', ..] => "compared",
        [b'n', ..] => "next",
        [b'm', ..] => "make",
        [b'p', ..] => "pass",
        [b'b', ..] => "behind",
        [b'o', ..] => "open",
        [b'i', ..] => "is",
        _ => "ended",
    }
}

// One line on the area that is lent, which another line may replace: the handle, the area and the line stay apart.
fn replay(rt: &impl Print, area: &mut [u64], line: &[u8]) -> io::Result<()> {
    let fields = Fields::behind_name(line);
    match name(line) {
        "make" => match active_books::make(area) {
            Ok(()) => Ok(()),
            Err(refusal) => print_refusal(rt, refusal.number()),
        },
        name @ ("all" | "next" | "check") => call_listed(rt, area, name, fields),
        name => call_one(rt, area, name, fields),
    }
}

// Each program has its own areas; what the programs do alike is `replay_lent`.
fn main(rt: HostRuntime) -> io::Result<()> {
    let mut room = [0u8; 65_536];
    let script = vectors_script::read_script(&rt, &mut room)?;
    let mut area = [0u64; 1300];
    let mut short = [0u64; 1285];
    vectors_script::replay_lent(&rt, script, &mut area, &mut short, |rt, area, line| {
        replay(rt, area, line)
    })
}

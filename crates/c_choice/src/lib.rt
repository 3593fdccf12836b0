// The boundary for programs in C or Rust: which copy takes over. Nothing is asked of a caller.
#![tactic(auto)]

ghost use Rattle.std.specs.Prelude.{◌≡◌, ℕ, min, ◌+◌, ◌*◌, ◌≤◌, ◌<◌, length};
ghost use Rattle.c_choice.specs.Choosing.{listed_flag, described_at, LentIs, returned};

use base_refusals::Refusal;
use c_code::code;
use frame_fields::Epoch;
use standby_choice::{CopyState, LentCopy};
use store_areas::Shape;

// The words of a copy: whether it is listed, whether it is checked, its epoch, and its store's S, C and M.
const COPY_WORDS: usize = 6;

// As many copies as there can be standbys.
const COPIES: usize = 5;

// A flag is set if it is not 0.
fn flag(w: u64) -> u8
    ensures { result ≡ listed_flag w }
{
    u8::from(w != 0)
}

// A word of a shape; one beyond 32 bits counts as the greatest.
fn at_most_u32(w: u64) -> u32
    ensures { result ≡ min w 4294967295 }
{
    w.min(u64::from(u32::MAX)) as u32
}

// The copy whose words begin at `at`.
fn copy_at(copies: &[u64], at: usize) -> CopyState
    requires { at + 6 ≤ length copies.now }
    ensures { result ≡ described_at copies.now at }
{
    CopyState {
        listed: flag(copies[at]),
        checked: flag(copies[at + 1]),
        epoch: Epoch(copies[at + 2]),
        shape: Shape {
            places: at_most_u32(copies[at + 3]),
            bytes: at_most_u32(copies[at + 4]),
            messages: at_most_u32(copies[at + 5]),
        },
    }
}

// The copy of a number, with its store's areas.
fn lent<'a>(copies: &[u64], number: usize, words: &'a [u64], bytes: &'a [u8]) -> LentCopy<'a>
    requires number_bound { number < 5 }
    requires copies_long { 30 ≤ length copies.now }
    ensures { LentIs copies.now (number * 6) words.now bytes.now result }
{
    LentCopy {
        copy: copy_at(copies, number * COPY_WORDS),
        words,
        bytes,
    }
}

// Which copy takes over. C lends the two areas of each copy apart.
#[unsafe(no_mangle)]
pub extern "C" fn wz_choose(
    copies: &[u64],
    w0: &[u64],
    b0: &[u8],
    w1: &[u64],
    b1: &[u8],
    w2: &[u64],
    b2: &[u8],
    w3: &[u64],
    b3: &[u8],
    w4: &[u64],
    b4: &[u8],
) -> u64
    ensures { result ≡ returned copies.now w0.now b0.now w1.now b1.now w2.now b2.now w3.now b3.now w4.now b4.now }
{
    if copies.len() < COPY_WORDS * COPIES {
        return code(Err(Refusal::RulesBroken));
    }
    let choice = standby_choice::choose(&[
        lent(copies, 0, w0, b0),
        lent(copies, 1, w1, b1),
        lent(copies, 2, w2, b2),
        lent(copies, 3, w3, b3),
        lent(copies, 4, w4, b4),
    ]);
    code(choice)
}

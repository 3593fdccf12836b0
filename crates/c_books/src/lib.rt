// The books of catching a standby up, for programs in C or Rust: each function has the promise of `active_books`, its answer in numbers, and asks nothing of its caller.
#![tactic(auto)]

ghost use Rattle.model_active.specs.CatchUp as m;
ghost use Rattle.active_books.specs.Calls.{books_answer, done_of, opened_of, picked_of};
ghost use Rattle.c_books.specs.Numbers.{InNumbers, CallsInNumbers, MakesBooks, TellsBehind};

use active_books::Opened;
use base_refusals::Refusal;
use frame_fields::Incarnation;

// An answer, in the numbers that C reads: a refusal or 0; 1 for wait, for one that is picked, and for yes, else 0; the session picked or 0.
#[repr(C)]
#[derive(Clone, Copy)]
pub struct Answered {
    pub refusal: u8,
    pub flag: u8,
    pub session: u64,
}

// What a call answers when it isn't refused, in numbers.
trait Numbered {
    ghost said: { Self → m.Answer };

    fn numbered(self) -> Answered
        ensures { InNumbers (said self) result };
}

impl Numbered for () {
    ghost said = { done_of };

    fn numbered(self) -> Answered {
        Answered {
            refusal: 0,
            flag: 0,
            session: 0,
        }
    }
}

impl Numbered for Opened {
    ghost said = { opened_of };

    fn numbered(self) -> Answered {
        Answered {
            refusal: 0,
            flag: match self {
                Opened::Done => 0,
                Opened::Wait => 1,
            },
            session: 0,
        }
    }
}

impl Numbered for Option<u64> {
    ghost said = { picked_of };

    fn numbered(self) -> Answered {
        Answered {
            refusal: 0,
            flag: u8::from(self.is_some()),
            session: self.unwrap_or(0),
        }
    }
}

impl Numbered for bool {
    ghost said = { m.says };

    fn numbered(self) -> Answered {
        Answered {
            refusal: 0,
            flag: u8::from(self),
            session: 0,
        }
    }
}

fn in_numbers<A: Numbered>(answer: Result<A, Refusal>) -> Answered
    ensures { InNumbers (books_answer A.said answer) result }
{
    match answer {
        Ok(value) => value.numbered(),
        Err(refusal) => Answered {
            refusal: refusal.number(),
            flag: 0,
            session: 0,
        },
    }
}

#[unsafe(no_mangle)]
pub extern "C" fn wz_books_make(words: &mut [u64]) -> Answered
    ensures { MakesBooks words.old words.new result }
{
    in_numbers(active_books::make(words))
}

#[unsafe(no_mangle)]
pub extern "C" fn wz_books_fall_behind(words: &mut [u64], session: u64) -> Answered
    ensures { CallsInNumbers words.old words.new (m.fall_behind session) result }
{
    in_numbers(active_books::fall_behind(words, session))
}

#[unsafe(no_mangle)]
pub extern "C" fn wz_books_all_fall_behind(words: &mut [u64], listing: &[u64]) -> Answered
    ensures { CallsInNumbers words.old words.new (m.all_fall_behind listing.now) result }
{
    in_numbers(active_books_pass::all_fall_behind(words, listing))
}

#[unsafe(no_mangle)]
pub extern "C" fn wz_books_caught_up(
    words: &mut [u64],
    session: u64,
    incarnation: Incarnation,
) -> Answered
    ensures { CallsInNumbers words.old words.new (m.caught_up session incarnation.0) result }
{
    in_numbers(active_books::caught_up(words, session, incarnation))
}

#[unsafe(no_mangle)]
pub extern "C" fn wz_books_behind_unless_compared_open(
    words: &mut [u64],
    incarnation: Incarnation,
) -> Answered
    ensures { CallsInNumbers words.old words.new (m.behind_unless_compared_open incarnation.0) result }
{
    in_numbers(active_books_pass::behind_unless_compared_open(words, incarnation))
}

#[unsafe(no_mangle)]
pub extern "C" fn wz_books_next_to_catch_up(
    words: &mut [u64],
    listing: &[u64],
    incarnation: Incarnation,
) -> Answered
    ensures { CallsInNumbers words.old words.new (m.next_to_catch_up listing.now incarnation.0) result }
{
    in_numbers(active_books_pass::next_to_catch_up(words, listing, incarnation))
}

#[unsafe(no_mangle)]
pub extern "C" fn wz_books_opening(words: &mut [u64], session: u64) -> Answered
    ensures { CallsInNumbers words.old words.new (m.opening session) result }
{
    in_numbers(active_books::opening(words, session))
}

#[unsafe(no_mangle)]
pub extern "C" fn wz_books_closed(words: &mut [u64], session: u64) -> Answered
    ensures { CallsInNumbers words.old words.new (m.closed session) result }
{
    in_numbers(active_books::closed(words, session))
}

#[unsafe(no_mangle)]
pub extern "C" fn wz_books_ended(
    words: &mut [u64],
    session: u64,
    incarnation: Incarnation,
) -> Answered
    ensures { CallsInNumbers words.old words.new (m.ended session incarnation.0) result }
{
    in_numbers(active_books::ended(words, session, incarnation))
}

#[unsafe(no_mangle)]
pub extern "C" fn wz_books_all_compared(
    words: &mut [u64],
    listing: &[u64],
    incarnation: Incarnation,
) -> Answered
    ensures { CallsInNumbers words.old words.new (m.all_compared listing.now incarnation.0) result }
{
    in_numbers(active_books_pass::all_compared(words, listing, incarnation))
}

#[unsafe(no_mangle)]
pub extern "C" fn wz_books_acknowledged(words: &mut [u64], incarnation: Incarnation) -> Answered
    ensures { CallsInNumbers words.old words.new (m.acknowledge incarnation.0) result }
{
    in_numbers(active_books::acknowledged(words, incarnation))
}

#[unsafe(no_mangle)]
pub extern "C" fn wz_books_is_behind(words: &[u64], session: u64) -> Answered
    ensures { TellsBehind words.now session result }
{
    in_numbers(active_books::is_behind(words, session))
}

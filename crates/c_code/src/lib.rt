// An answer as one number for C: a refusal with its detail, or done with a count; or a refusal's number alone.
#![tactic(auto)]

ghost use Rattle.std.specs.Prelude.{◌≡◌};
ghost use Rattle.base_refusals.specs.Numbers.{answer_number};
ghost use Rattle.c_code.specs.Codes.{refusal_code, done_code, code_of};

use base_refusals::Refusal;

// Refusal n, with its detail.
pub fn refusal(n: u8, detail: u32) -> u64
    ensures { result ≡ refusal_code n detail }
{
    u64::from(n) * 1_099_511_627_776 + u64::from(detail)
}

// Done, with a count.
pub fn done(count: usize) -> u64
    ensures { result ≡ done_code count }
{
    if count < 4_611_686_018_427_387_904 {
        return 9_223_372_036_854_775_808 + (count as u64);
    }
    u64::MAX
}

// What a call came to that gives a count, or a refusal without detail.
pub fn code(answer: Result<usize, Refusal>) -> u64
    ensures { result ≡ code_of answer }
{
    match answer {
        Ok(count) => done(count),
        Err(e) => refusal(e.number(), 0),
    }
}

// 0, or the refusal's number.
pub fn number(answer: Result<(), Refusal>) -> u8
    ensures { result ≡ answer_number answer }
{
    match answer {
        Ok(()) => 0,
        Err(e) => e.number(),
    }
}

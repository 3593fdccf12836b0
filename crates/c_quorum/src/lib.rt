// Up to five standbys, for programs in C or Rust: each function has the promise of `active_quorum`, and asks nothing of its caller.
#![tactic(auto)]

ghost use Rattle.std.specs.Prelude.{◌≡◌};
ghost use Rattle.model_quorum.specs.History.{bind, sent, ack, stale};
ghost use Rattle.active_quorum.specs.Area.{MakesQuorum, Does};
ghost use Rattle.c_quorum.specs.Boundary.{TellsShown};

use frame_fields::CommitNumber;

// A figure, in the numbers that C reads: 25 or 37, else 0 and the number.
#[repr(C)]
#[derive(Clone, Copy)]
pub struct Shown {
    pub refusal: u8,
    pub number: CommitNumber,
}

#[unsafe(no_mangle)]
pub extern "C" fn wz_quorum_make(words: &mut [u64], n: u64, k: u64) -> u8
    ensures { MakesQuorum words.old n k result words.new }
{
    c_code::number(active_quorum::make(words, n, k))
}

#[unsafe(no_mangle)]
pub extern "C" fn wz_quorum_bind(words: &mut [u64], handle: u32) -> u8
    ensures { Does words.old (bind handle) result words.new }
{
    c_code::number(active_quorum::bind(words, handle))
}

#[unsafe(no_mangle)]
pub extern "C" fn wz_quorum_sent(words: &mut [u64], handle: u32, number: CommitNumber) -> u8
    ensures { Does words.old (sent handle number.0) result words.new }
{
    c_code::number(active_quorum::sent(words, handle, number))
}

#[unsafe(no_mangle)]
pub extern "C" fn wz_quorum_acknowledged(
    words: &mut [u64],
    member: usize,
    handle: u32,
    number: CommitNumber,
) -> u8
    ensures { Does words.old (ack member handle number.0) result words.new }
{
    c_code::number(active_quorum::acknowledged(words, member, handle, number))
}

#[unsafe(no_mangle)]
pub extern "C" fn wz_quorum_stale_epoch(words: &mut [u64], member: usize) -> u8
    ensures { Does words.old (stale member) result words.new }
{
    c_code::number(active_quorum::stale_epoch(words, member))
}

#[unsafe(no_mangle)]
pub extern "C" fn wz_quorum_figure(words: &[u64], handle: u32) -> Shown
    ensures { TellsShown words.now handle result }
{
    match active_quorum::figure(words, handle) {
        Ok(number) => Shown { refusal: 0, number },
        Err(refusal) => Shown {
            refusal: refusal.number(),
            number: CommitNumber(0),
        },
    }
}

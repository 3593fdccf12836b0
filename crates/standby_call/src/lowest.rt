// Whether a call hands up the lowest message on hand, and what: an applied LastWhole does, an applied Commit if the settings ask for it.
ghost use Rattle.std.specs.Prelude.{◌≡◌, get_or};
ghost use Rattle.base_flags.specs.Flag.{is_set};
ghost use Rattle.standby_call.specs.Call.{call_of};
ghost use Rattle.standby_step.specs.Lowest.{byte_tells, bytes_tell, call_tells, is_acked, own_lowest, lowest_told};

use crate::Call;
use frame_fields::kind;
use standby_row::Lookup;
use standby_state::{Answer, Settings};
use store_areas::Shape;

// Where a frame has its kind, and a Batch its part.
const KIND_AT: usize = 4;

const PART_AT: usize = 25;

// The bytes of the two parts whose end changes a session.
const COMMIT: u8 = 0;

const LAST_WHOLE: u8 = 2;

// A byte of a frame; 0 behind its end.
fn byte_at(frame: &[u8], at: usize) -> u8
    ensures { result ≡ get_or frame.now at 0 }
{
    frame.get(at).copied().unwrap_or(0)
}

fn part_tells(settings: Settings, part: u8) -> bool
    ensures { result ≡ byte_tells (is_set settings.tells_lowest) part }
{
    (part == LAST_WHOLE) | ((settings.tells_lowest != 0) & (part == COMMIT))
}

fn frame_tells(settings: Settings, frame: &[u8]) -> bool
    ensures { result ≡ bytes_tell (is_set settings.tells_lowest) frame.now }
{
    (byte_at(frame, KIND_AT) == kind::BATCH) & part_tells(settings, byte_at(frame, PART_AT))
}

fn call_tells(settings: Settings, frame: &[u8], call: Call) -> bool
    ensures { result ≡ call_tells (is_set settings.tells_lowest) (call_of call frame.now) }
{
    match call {
        Call::OnFrameHeld | Call::OnFrame => frame_tells(settings, frame),
        _ => false,
    }
}

fn is_ack(answer: Answer) -> bool
    ensures { result ≡ is_acked answer }
{
    (answer.refusal == 0) & (answer.kind == kind::ACK)
}

// The lowest of the session whose handle was found.
fn own_lowest(shape: Shape, words: &[u64], bytes: &[u8], lookup: Lookup) -> Option<u64>
    ensures { result ≡ own_lowest shape words.now bytes.now lookup.own }
{
    match lookup.own {
        Some(found) => store_lowest::lowest(words, bytes, shape, found.bound.place).ok(),
        None => None,
    }
}

// What a call hands up, by the store as it leaves it and what was found in the row before it.
pub fn handed_up(
    settings: Settings,
    lookup: Lookup,
    words: &[u64],
    bytes: &[u8],
    frame: &[u8],
    call: Call,
    answer: Answer,
) -> Option<u64>
    ensures { result ≡ lowest_told settings lookup (call_of call frame.now) words.now bytes.now answer }
{
    if is_ack(answer) & call_tells(settings, frame, call) {
        own_lowest(settings.shape, words, bytes, lookup)
    } else {
        None
    }
}

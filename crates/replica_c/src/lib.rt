// The standby's calls for programs in C or Rust: each is the call of `replica` under the same name.
#![tactic(auto)]

ghost use Rattle.model_standby.specs.State.{on_frame_held, on_frame, flush, disconnected_from, promote, promote_unchecked};
ghost use Rattle.standby_segments.specs.Segments.{hold_areas};
ghost use Rattle.standby_step.specs.Calls.{Called};
ghost use Rattle.replica.specs.Making.{MadeOver};

use standby_row::Bound;
use standby_state::{Answer, Replica, Settings};

// A frame that may be held back: its answer is sent once the pending commits have run.
#[unsafe(no_mangle)]
pub extern "C" fn on_frame_held(
    counters: &mut Replica,
    row: &mut [Bound],
    words: &mut [u64],
    bytes: &mut [u8],
    holds: &mut [u8],
    ends: &mut [u64],
    frame: &[u8],
    settings: Settings,
) -> Answer
    ensures { Called settings (on_frame_held frame.now) counters.old counters.new row.old row.new words.old words.new bytes.old bytes.new (hold_areas holds.old ends.old) (hold_areas holds.new ends.new) result }
{
    replica::on_frame_held(counters, row, words, bytes, holds, ends, frame, settings)
}

// A frame, and then the pending commits.
#[unsafe(no_mangle)]
pub extern "C" fn on_frame(
    counters: &mut Replica,
    row: &mut [Bound],
    words: &mut [u64],
    bytes: &mut [u8],
    holds: &mut [u8],
    ends: &mut [u64],
    frame: &[u8],
    settings: Settings,
) -> Answer
    ensures { Called settings (on_frame frame.now) counters.old counters.new row.old row.new words.old words.new bytes.old bytes.new (hold_areas holds.old ends.old) (hold_areas holds.new ends.new) result }
{
    replica::on_frame(counters, row, words, bytes, holds, ends, frame, settings)
}

// Runs the pending commits of a connection.
#[unsafe(no_mangle)]
pub extern "C" fn flush(
    counters: &mut Replica,
    row: &mut [Bound],
    words: &mut [u64],
    bytes: &mut [u8],
    holds: &mut [u8],
    ends: &mut [u64],
    connection: u64,
    settings: Settings,
) -> Answer
    ensures { Called settings (flush connection) counters.old counters.new row.old row.new words.old words.new bytes.old bytes.new (hold_areas holds.old ends.old) (hold_areas holds.new ends.new) result }
{
    replica::flush(
        counters, row, words, bytes, holds, ends, connection, settings,
    )
}

// The connection is gone: with it go the bindings and the pending commits.
#[unsafe(no_mangle)]
pub extern "C" fn disconnected_from(
    counters: &mut Replica,
    row: &mut [Bound],
    words: &mut [u64],
    bytes: &mut [u8],
    holds: &mut [u8],
    ends: &mut [u64],
    connection: u64,
    settings: Settings,
) -> Answer
    ensures { Called settings (disconnected_from connection) counters.old counters.new row.old row.new words.old words.new bytes.old bytes.new (hold_areas holds.old ends.old) (hold_areas holds.new ends.new) result }
{
    replica::disconnected_from(
        counters, row, words, bytes, holds, ends, connection, settings,
    )
}

// Promotes a standby that was checked.
#[unsafe(no_mangle)]
pub extern "C" fn promote(
    counters: &mut Replica,
    row: &mut [Bound],
    words: &mut [u64],
    bytes: &mut [u8],
    holds: &mut [u8],
    ends: &mut [u64],
    settings: Settings,
) -> Answer
    ensures { Called settings promote counters.old counters.new row.old row.new words.old words.new bytes.old bytes.new (hold_areas holds.old ends.old) (hold_areas holds.new ends.new) result }
{
    replica::promote(counters, row, words, bytes, holds, ends, settings)
}

// Promotes a standby, checked or not.
#[unsafe(no_mangle)]
pub extern "C" fn promote_unchecked(
    counters: &mut Replica,
    row: &mut [Bound],
    words: &mut [u64],
    bytes: &mut [u8],
    holds: &mut [u8],
    ends: &mut [u64],
    settings: Settings,
) -> Answer
    ensures { Called settings promote_unchecked counters.old counters.new row.old row.new words.old words.new bytes.old bytes.new (hold_areas holds.old ends.old) (hold_areas holds.new ends.new) result }
{
    replica::promote_unchecked(counters, row, words, bytes, holds, ends, settings)
}

// Makes a standby over a store: new counters, no pending commit, every record of the row freed.
#[unsafe(no_mangle)]
pub extern "C" fn make(
    counters: &mut Replica,
    row: &mut [Bound],
    words: &mut [u64],
    bytes: &[u8],
    settings: Settings,
) -> Answer
    ensures { MadeOver settings counters.old counters.new row.old row.new words.old words.new bytes.now result }
{
    replica::make(counters, row, words, bytes, settings)
}

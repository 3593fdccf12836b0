// One call on the standby, by value: which of the six it is, what it comes to over what was found in the row, and what it hands up (standby.rs, the functions of `Replica`).
#![tactic(auto)]

ghost use Rattle.std.specs.Prelude.{◌≡◌};
ghost use Rattle.standby_state.specs.Lent.{SameLent};
ghost use Rattle.standby_step.specs.Over.{StepOver};
ghost use Rattle.standby_step.specs.Calls.{handle_at, sought_by};
ghost use Rattle.standby_call.specs.Call.{call_of};

mod lowest;

use base_bytes::LittleEndian;
pub use lowest::handed_up;
use standby_state::{Areas, Outcome, Standing};

// Which call it is, and the number of the connection, for the calls that name one.
#[derive(Clone, Copy)]
pub enum Call {
    OnFrameHeld,
    OnFrame,
    Flush { connection: u64 },
    DisconnectedFrom { connection: u64 },
    Promote,
    PromoteUnchecked,
}

// The handle, where a Bind and a Batch have theirs; 0 in a frame that is too short for either.
fn handle_at(frame: &[u8]) -> u32
    ensures { result ≡ handle_at frame.now }
{
    if frame.len() < 9 {
        0
    } else {
        u32::read_at(frame, 5)
    }
}

// The handle that is looked up before the call; 0 where the call has no frame: such a call puts no record.
pub fn sought_by(frame: &[u8], call: Call) -> u32
    ensures { result ≡ sought_by (call_of call frame.now) }
{
    match call {
        Call::OnFrameHeld | Call::OnFrame => handle_at(frame),
        _ => 0,
    }
}

// What the call leaves and answers; a call that carries no frame looks at none.
pub fn run(standing: Standing, areas: &mut Areas, frame: &[u8], call: Call) -> Outcome
    ensures is { StepOver standing (call_of call frame.now) areas.old areas.new result }
    ensures same { SameLent areas.old areas.new }
{
    match call {
        Call::OnFrameHeld => standby_frame::on_frame_held(standing, areas, frame),
        Call::OnFrame => standby_frame::on_frame(standing, areas, frame),
        Call::Flush { connection } => { standby_lifecycle::flush(standing, areas, connection) }
        Call::DisconnectedFrom { connection } => {
            standby_lifecycle::disconnected_from(standing, areas, connection)
        }
        Call::Promote => standby_lifecycle::promote(standing, areas),
        Call::PromoteUnchecked => { standby_lifecycle::promote_unchecked(standing, areas) }
    }
}

// Frames survive writing and reading: what the contracts of `Frame::encode` and `Frame::decode` come to, one after the other.
#![tactic(auto)]

ghost use Rattle.theorem_round_trip.specs.RoundTrip.{Survives};

use frame::{EncodeError, Frame, FrameError};
use frame_stamp::Protocol;

// What reading an area gave after a frame of some length was written at its start.
#[derive(Clone, Copy, Debug, PartialEq, Eq)]
pub struct ReadAgain {
    pub read: Result<Option<(Frame, usize)>, FrameError>,
    pub written: usize,
}

// A frame is written at the start of an area and read from there; whatever the area had past it stands after it.
pub fn write_and_read(
    frame: Frame,
    protocol: Protocol,
    src: &[u8],
    area: &mut [u8],
) -> Result<ReadAgain, EncodeError>
    ensures { Survives protocol.version src.now frame area.old area.new result }
{
    let written = frame.encode(protocol, src, area)?;
    Ok(ReadAgain {
        read: Frame::decode(protocol, area),
        written,
    })
}

// What a call of the standby answers, as a frame and as its bytes.
#![tactic(auto)]

ghost use Rattle.std.specs.Prelude.{◌≡◌};
ghost use Rattle.frame_writer.specs.Encoding.{Encoded};
ghost use Rattle.standby_reply.specs.Replies.{frame_for, Frames};

use frame::{EncodeError, Frame, NackReason, Summary};
use frame_fields::kind;
use frame_stamp::Protocol;
use standby_state::Answer;

// The frame of an answer: a refusal and done have none, nor has a kind or a reason that is none.
fn frame(answer: Answer) -> Option<Frame>
    ensures { Frames answer result }
{
    if answer.refusal != 0 {
        return None;
    }
    let handle = answer.handle;
    match answer.kind {
        kind::WELCOME => Some(Frame::Welcome {
            epoch: answer.epoch,
            incarnation: answer.incarnation,
        }),
        kind::ACK => Some(Frame::Ack {
            handle,
            commit_no: answer.commit_no,
        }),
        kind::NACK => Some(Frame::Nack {
            handle,
            reason: NackReason::try_from(answer.reason).ok()?,
        }),
        kind::BOUND => Some(Frame::Bound {
            handle,
            summary: Summary::from(answer.summary),
        }),
        _ => None,
    }
}

// The bytes of an answer's frame, written in the version that the call leaves, and Unreadable where it has none; `bytes` is the store's byte area, where a
// Bound has its texts.
pub fn write(
    protocol: Protocol,
    answer: Answer,
    bytes: &[u8],
    out: &mut [u8],
) -> Result<usize, EncodeError>
    ensures { Encoded protocol.version (frame_for bytes.now answer) out.old out.new result }
{
    let frame = frame(answer).ok_or(EncodeError::Unreadable)?;
    frame.encode(protocol, bytes, out)
}

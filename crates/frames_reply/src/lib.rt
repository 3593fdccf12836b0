// What a call of the standby answers, as a line's text: the digits of its frame, or R and the refusal.
#![tactic(auto)]

ghost use Rattle.std.specs.Prelude.{◌*◌, ◌≤◌, length};
ghost use Rattle.base_hex.specs.Lines.{Puts};
ghost use Rattle.model_frame.specs.Writing.{write_outcome};
ghost use Rattle.standby_reply.specs.Replies.{frame_for};
ghost use Rattle.frames_reply.specs.Texts.{outcome_text, record_text};

use base_refusals::Refusal;
use frame_stamp::Protocol;
use standby_state::Answer;

// The digits of an answer's frame, or the refusal where it can't be written; buf is for its bytes.
fn put_reply(
    protocol: Protocol,
    answer: Answer,
    bytes: &[u8],
    buf: &mut [u8],
    out: &mut [u8],
) -> usize
    requires in_bounds { 4 ≤ length buf.old }
    requires buf_in_bounds { 2 * length buf.old ≤ length out.old }
    ensures { Puts (outcome_text (write_outcome protocol.version (frame_for bytes.now answer) (length buf.old))) out.old out.new result }
{
    match standby_reply::write(protocol, answer, bytes, buf) {
        Ok(n) => {
            base_hex::put_hex(&buf[0..n], out);
            2 * n
        }
        Err(error) => base_hex::put_refusal(Refusal::from(error).number(), out),
    }
}

// The text of an answer: none for done, else `R n` or the digits of its frame; how long it is.
pub fn put_answer(
    protocol: Protocol,
    answer: Answer,
    bytes: &[u8],
    buf: &mut [u8],
    out: &mut [u8],
) -> usize
    requires in_bounds { 4 ≤ length buf.old }
    requires buf_in_bounds { 2 * length buf.old ≤ length out.old }
    ensures { Puts (record_text protocol.version (length buf.old) bytes.now answer) out.old out.new result }
{
    if answer.refusal == 0 {
        if answer.kind == 0 {
            return 0;
        }
        return put_reply(protocol, answer, bytes, buf, out);
    }
    base_hex::put_refusal(answer.refusal, out)
}

// Writing frames, kind by kind: whether every field can be written, whether there is room, then the bytes.
#![tactic(auto)]

ghost use Rattle.std.specs.Prelude.{◌≡◌, true, ◌&&◌, ◌∷◌, ◌++◌, ℕ, ◌+◌, ◌*◌, ◌^◌, ◌≤◌, ◌<◌, length};
ghost use Rattle.model_frame.specs.Bytes.{bytes_of};
ghost use Rattle.model_frame.specs.Frame.{hello, welcome, bind, batch, ack, nack, bound, checked};
ghost use Rattle.model_frame.specs.Parse.{read_num};
ghost use Rattle.model_frame.specs.Reading.{read_change, read_app_record};
ghost use Rattle.model_frame.specs.Writing.{blob_bytes, key_bytes, summary_bytes, part_number, reason_number, flight_number, fine_key, fine_summary};
ghost use Rattle.base_bytes.specs.Put.{Put};
ghost use Rattle.base_refusals.specs.Numbers.{number_of};
ghost use Rattle.frame_reader.specs.Answers.{span_of};
ghost use Rattle.frame_op.specs.Answers.{run_of};
ghost use Rattle.frame_fields.specs.Answers.{part_of, reason_of, flight_of, key_of, summary_of};
ghost use Rattle.frame_writer.specs.Encoding.{span_fits, run_reads, key_fits, summary_fits, key_size, summary_size, frame_if, error_number, Encoded, Started};

use base_bytes::{LittleEndian, Writer};
use base_refusals::Refusal;
use frame_fields::{NackReason, Part, SessionId, Summary};
use frame_op::Run;
use frame_reader::{Reader, Span};
use frame_stamp::Protocol;

// The longest body.
pub const MAX_FRAME_BYTES: u32 = 67108864;

// Why no frame was written: a field that reading would refuse, a body too long, an area too short.
#[derive(Clone, Copy, Debug, PartialEq, Eq)]
pub enum EncodeError {
    Unreadable,
    TooLong,
    NoRoom,
}

impl From<EncodeError> for Refusal {
    ghost from_gives = { λ error refusal. number_of refusal ≡ error_number error };

    fn from(error: EncodeError) -> Refusal {
        match error {
            EncodeError::Unreadable => Refusal::Unreadable,
            EncodeError::TooLong => Refusal::TooLong,
            EncodeError::NoRoom => Refusal::NoRoom,
        }
    }
}

// Whether a part lies in the source.
pub fn within(src: &[u8], span: Span) -> bool
    ensures { result ≡ span_fits src.now span }
{
    span.at <= src.len() && (span.len as usize) <= src.len() - span.at
}

// Whether so many kinds can be read.
pub fn kinds_fit(src: &[u8], run: Run) -> bool
    ensures { result ≡ run_reads (read_num 2) src.now run }
{
    let kinds = Reader {
        buf: src,
        at: run.at,
    };
    (run.count as usize) * 2 <= kinds.left()
}

pub fn session_fits(src: &[u8], session: SessionId) -> bool
    ensures { result ≡ (key_fits src.now session && fine_key (key_of src.now session)) }
{
    let fits = within(src, session.begin_string)
        & within(src, session.sender_comp_id)
        & within(src, session.target_comp_id)
        & within(src, session.key_suffix);
    fits & frame_stamp::is_key(
        frame_reader::slice(src, session.begin_string),
        frame_reader::slice(src, session.sender_comp_id),
        frame_reader::slice(src, session.target_comp_id),
        frame_reader::slice(src, session.key_suffix),
    )
}

pub fn summary_fits(protocol: Protocol, src: &[u8], summary: Summary) -> bool
    ensures { result ≡ (summary_fits src.now summary && fine_summary protocol.version (summary_of src.now summary)) }
{
    let fits = within(src, summary.created_at) & within(src, summary.marks);
    let created_at = frame_reader::slice(src, summary.created_at);
    let dated = frame_reader::is_stamp_or_none(protocol, created_at);
    fits & (dated & frame_stamp::is_marks(frame_reader::slice(src, summary.marks)))
}

// Writes the length of a body, if the body is short enough and the area has room for both, and gives the place behind it.
pub fn begin(out: &mut [u8], n: usize) -> Result<usize, EncodeError>
    ensures { Started n out.old out.new result }
{
    if (MAX_FRAME_BYTES as usize) < n {
        return Err(EncodeError::TooLong);
    }
    if out.len() < 4 + n {
        return Err(EncodeError::NoRoom);
    }
    Ok((n as u32).put_at(out, 0))
}

// A part of the source as a blob.
pub fn put_span(src: &[u8], span: Span, writer: &mut Writer)
    requires { writer.old.at + (4 + length (span_of src.now span)) ≤ length writer.old.out.now }
    ensures put { Put writer.old (blob_bytes (span_of src.now span)) writer.new }
    ensures past { writer.new.at ≡ writer.old.at + (4 + length (span_of src.now span)) }
{
    writer.blob(frame_reader::slice(src, span));
}

pub fn put_session(src: &[u8], session: SessionId, writer: &mut Writer)
    requires { writer.old.at + key_size (key_of src.now session) ≤ length writer.old.out.now }
    ensures { Put writer.old (key_bytes (key_of src.now session)) writer.new }
{
    put_span(src, session.begin_string, writer);
    put_span(src, session.sender_comp_id, writer);
    put_span(src, session.target_comp_id, writer);
    put_span(src, session.key_suffix, writer);
}

// On the wire 0 stands for none.
fn flight_number(flight: Option<u64>) -> u64
    ensures { result ≡ flight_number (flight_of flight) }
{
    flight.unwrap_or(0)
}

pub fn put_summary(src: &[u8], summary: Summary, writer: &mut Writer)
    requires { writer.old.at + summary_size (summary_of src.now summary) ≤ length writer.old.out.now }
    ensures { Put writer.old (summary_bytes (summary_of src.now summary)) writer.new }
{
    writer.number(summary.next_outgoing);
    writer.number(summary.next_incoming);
    writer.number(flight_number(summary.in_flight));
    put_span(src, summary.created_at, writer);
    put_span(src, summary.marks, writer);
    writer.number(summary.last_outgoing);
}

// The byte of a part; it and the next go by `as`, whose numbers stand with the cases.
pub fn part_byte(part: Part) -> u8
    ensures { result ≡ part_number (part_of part) }
{
    part as u8
}

pub fn reason_byte(reason: NackReason) -> u8
    ensures { result ≡ reason_number (reason_of reason) }
{
    reason as u8
}

// A kind and a handle.
pub fn put_handle(kind: u8, handle: u32, writer: &mut Writer)
    requires { writer.old.at + 5 ≤ length writer.old.out.now }
    ensures put { Put writer.old (kind ∷ bytes_of 4 handle) writer.new }
    ensures past { writer.new.at ≡ writer.old.at + 5 }
{
    writer.byte(kind);
    writer.number(handle);
}

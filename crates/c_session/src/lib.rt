// The session at a place of the store, written as bytes: whether it is durable, whether a number is in flight, its key, its summary.
// A place comes as a number beside its view, as in store_sessions.
#![tactic(auto)]

ghost use Rattle.std.specs.Prelude.{◌≡◌, ◌∷◌, ◌++◌, ℕ, ◌+◌, ◌≤◌, ◌<◌, length};
ghost use Rattle.std.proofs.Math.Option.{some};
ghost use Rattle.model_frame.specs.Writing.{key_bytes, summary_bytes};
ghost use Rattle.model_standby.specs.Row.{is_some};
ghost use Rattle.base_laws.specs.Wrote.{Wrote};
ghost use Rattle.frame_reader.specs.Answers.{span_of};
ghost use Rattle.frame_fields.specs.Answers.{flight_of, key_of, summary_of};
ghost use Rattle.frame_writer.specs.Encoding.{key_size, summary_size};
ghost use Rattle.store_areas.specs.Areas.{place_at, used_of};
ghost use Rattle.c_session.specs.Telling.{span_at, flag, told_bytes, told_at, TellsSession};

use base_bytes::Writer;
use base_refusals::Refusal;
use frame_fields::{SessionId, Summary};
use frame_reader::Span;
use store_areas::{Shape, View};
use store_place::byte;

// ---- what stands in the byte area

// A text that stands at a position.
fn span(at: usize, text: &[u8]) -> Span
    requires { length text.now < 4294967296 }
    ensures { result ≡ span_at at text.now }
{
    Span {
        at,
        len: text.len() as u32,
    }
}

// The key of a place in use, by positions, which the frame's writer takes: a Place has slices.
fn key_of(view: &View, place: usize) -> SessionId
    requires { place < used_of view.now.words.now }
    ensures { key_of view.now.bytes.now result ≡ (place_at view.now.shape view.now.words.now view.now.bytes.now place).key }
{
    let start = view.spot(place).bytes_start;
    let key = view.place(place).key();
    SessionId {
        begin_string: span(start, key.begin),
        sender_comp_id: span(start + byte::SENDER, key.sender),
        target_comp_id: span(start + byte::TARGET, key.target),
        key_suffix: span(start + byte::SUFFIX, key.suffix),
    }
}

// ---- lengths

// How many bytes a part has.
fn len(bytes: &[u8], span: Span) -> usize
    ensures value { result ≡ length (span_of bytes.now span) }
    ensures upper_bound { result < 4294967296 }
{
    frame_reader::slice(bytes, span).len()
}

// How many bytes a session's key and summary take with the two flags before them.
fn size(bytes: &[u8], session: SessionId, fields: Summary) -> usize
    ensures { result ≡ 2 + key_size (key_of bytes.now session) + summary_size (summary_of bytes.now fields) }
{
    let key = 16
        + len(bytes, session.begin_string)
        + len(bytes, session.sender_comp_id)
        + len(bytes, session.target_comp_id)
        + len(bytes, session.key_suffix);
    let summary = 40 + len(bytes, fields.created_at) + len(bytes, fields.marks);
    2 + key + summary
}

// ---- writing

// A session from the start of an area that has the room.
fn put(bytes: &[u8], durable: bool, session: SessionId, summary: Summary, out: &mut [u8]) -> usize
    requires { 2 + key_size (key_of bytes.now session) + summary_size (summary_of bytes.now summary) ≤ length out.old }
    ensures { Wrote out.old 0 (flag durable ∷ flag (is_some (flight_of summary.in_flight)) ∷ (key_bytes (key_of bytes.now session) ++ summary_bytes (summary_of bytes.now summary))) out.new result }
{
    let mut writer = Writer { out, at: 0 };
    writer.byte(u8::from(durable));
    writer.byte(u8::from(summary.in_flight.is_some()));
    frame_writer::put_session(bytes, session, &mut writer);
    frame_writer::put_summary(bytes, summary, &mut writer);
    writer.at
}

// The session at a place in use.
fn write_session(view: &View, place: usize, n: u64, out: &mut [u8]) -> Result<usize, Refusal>
    requires { place < used_of view.now.words.now }
    ensures { TellsSession (some (told_bytes (place_at view.now.shape view.now.words.now view.now.bytes.now place) n)) out.old out.new result }
{
    let durable = store_sessions::durable(view, place);
    let k = key_of(view, place);
    let m = store_sessions::summary_of(view, place, n);
    if out.len() < size(view.bytes, k, m) {
        return Err(Refusal::NoRoom);
    }
    Ok(put(view.bytes, durable, k, m, out))
}

// The areas and the shape come apart, as C lends them.
// The session at a place: 25 broken rules or a place that is not in use, 9 an area too short; both leave the area as it was.
pub fn session(
    words: &[u64],
    bytes: &[u8],
    shape: Shape,
    place: usize,
    n: u64,
    out: &mut [u8],
) -> Result<usize, Refusal>
    ensures { TellsSession (told_at shape words.now bytes.now place n) out.old out.new result }
{
    let view = View::with_place(shape, words, bytes, place)?;
    write_session(&view, place, n, out)
}

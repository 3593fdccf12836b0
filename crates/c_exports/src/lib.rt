// The boundary for programs in C or Rust (docs/ENTRY_POINTS.md has the signatures and what is returned). Nothing is asked of a caller.
// C hands the three numbers of a shape apart.
#![tactic(auto)]

ghost use Rattle.std.specs.Prelude.{◌≡◌, ◌+◌, ◌*◌, ◌<◌, ◌≤◌, length, take, drop, set};
ghost use Rattle.active_batch.specs.Batch.{number_or_none};
ghost use Rattle.model_frame.specs.Reading.{decode};
ghost use Rattle.frame_reader.specs.Answers.{field_of, fault_of};
ghost use Rattle.model_frame.specs.Writing.{write_outcome};
ghost use Rattle.frame_writer.specs.Encoding.{written_of};
ghost use Rattle.frame.specs.Answers.{frame_in};
ghost use Rattle.active.specs.Whole.{limit_of, ready, sender_of, stored_at, start_of, BegunOn};
ghost use Rattle.c_session.specs.Telling.{told_at};
ghost use Rattle.c_exports.specs.Returned.{in_version, field_number, fault_detail, fault_code, read_code, written_code};
ghost use Rattle.c_exports.specs.Exports.{Again, Rewrites, RewritesIn, shape_of, TellsPlace, TellsAnswer};
ghost use Rattle.c_exports.specs.Queues.{PushesWords, Filled};
ghost use Rattle.c_exports.specs.Sendings.{from_word, done_byte, line_in, start_in, SendIs, SendsNext};

use active::{Line, Sending};
use active_lag::ReplicatedLog;
use base_refusals::Refusal;
use c_code::{code, done, refusal};
use frame::{EncodeError, Field, Frame, FrameError};
use frame_fields::{CommitNumber, Epoch};
use frame_stamp::Protocol;
use standby_state::Answer;
use store_areas::Shape;

// ---- what is returned

// Done, and nothing is left.
const LAST: u64 = 13_835_058_055_282_163_712;

// A field and its unknown byte; a field's number is its place in the enum.
fn unknown(field: Field, byte: u8) -> u32
    ensures { result ≡ field_number (field_of field) * 256 + byte }
{
    field as u32 * 256 + u32::from(byte)
}

// The detail of a fault: a length, a field and its byte, or nothing.
fn detail(error: FrameError) -> u32
    ensures { result ≡ fault_detail (fault_of error) }
{
    match error {
        FrameError::TooLong(n) => n,
        FrameError::Truncated => 0,
        FrameError::Unknown(field, byte) => unknown(field, byte),
        FrameError::Invalid(_) => 0,
    }
}

fn fault(error: FrameError) -> u64
    ensures { result ≡ fault_code (fault_of error) }
{
    refusal(error.number(), detail(error))
}

// What writing came to: the bytes written, or a refusal.
fn written(written: Result<usize, EncodeError>) -> u64
    ensures { result ≡ written_code (written_of written) }
{
    code(written.map_err(Refusal::from))
}

// ---- frames

// A frame that was read from src, written again; `used` is how many bytes it took.
fn rewritten(protocol: Protocol, decoded: Frame, used: usize, src: &[u8], out: &mut [u8]) -> u64
    ensures { Again used (write_outcome protocol.version (frame_in protocol.version src.now decoded) (length out.old)) out.old out.new result }
{
    match decoded.encode(protocol, src, out) {
        Ok(_) => done(used),
        Err(e) => refusal(Refusal::from(e).number(), 0),
    }
}

// Reads one frame and writes it again, in a version that there is.
fn read_and_write(protocol: Protocol, frame: &[u8], out: &mut [u8]) -> u64
    ensures { Rewrites (decode protocol.version frame.now) out.old out.new result }
{
    match Frame::decode(protocol, frame) {
        Ok(None) => 0,
        Ok(Some((f, used))) => rewritten(protocol, f, used, frame, out),
        Err(e) => fault(e),
    }
}

// Reads one frame and writes it again, in the version that is handed in.
#[unsafe(no_mangle)]
pub extern "C" fn wz_frame(frame: &[u8], out: &mut [u8], version: u16) -> u64
    ensures { RewritesIn version frame.now out.old out.new result }
{
    match Protocol::new(version) {
        Ok(protocol) => read_and_write(protocol, frame, out),
        Err(e) => refusal(e.number(), 0),
    }
}

// Reads one frame, in a version that there is.
fn read(protocol: Protocol, frame: &[u8]) -> u64
    ensures { result ≡ read_code (decode protocol.version frame.now) }
{
    match Frame::decode(protocol, frame) {
        Ok(None) => 0,
        Ok(Some((_, used))) => done(used),
        Err(e) => fault(e),
    }
}

// Reads one frame, in the version that is handed in.
#[unsafe(no_mangle)]
pub extern "C" fn wz_read(frame: &[u8], version: u16) -> u64
    ensures { result ≡ in_version version (read_code (decode version frame.now)) }
{
    match Protocol::new(version) {
        Ok(protocol) => read(protocol, frame),
        Err(e) => refusal(e.number(), 0),
    }
}

// ---- sessions

// The session at a place. C hands the three numbers of a shape apart.
#[unsafe(no_mangle)]
pub extern "C" fn wz_session(
    words: &[u64],
    bytes: &[u8],
    out: &mut [u8],
    sessions: u32,
    c: u32,
    m: u32,
    place: usize,
    n: u64,
) -> u64
    ensures { TellsPlace (told_at (shape_of sessions c m) words.now bytes.now place n) out.old out.new result }
{
    let shape = Shape {
        places: sessions,
        bytes: c,
        messages: m,
    };
    code(c_session::session(words, bytes, shape, place, n, out))
}

// ---- whole sending: the last commit number, whether it has begun, where it goes on, whether it is done, the line

const SENDING_WORDS: usize = 5;

// The line that a sending's words name.
fn line_of(sending: &[u64]) -> Option<Line>
    ensures { result ≡ line_in sending.now }
{
    if sending.len() < SENDING_WORDS {
        return None;
    }
    match sending[4] {
        0 => Some(Line::HeadOffice),
        1 => Some(Line::Branch),
        _ => None,
    }
}

// The words of a sending for its next call.
fn put_sending(sending: &mut [u64], last: CommitNumber, from: Option<u64>)
    requires { 4 ≤ length sending.old }
    ensures { sending.new ≡ set (set (set (set sending.old 0 last.0) 1 1) 2 (from_word (number_or_none from))) 3 (done_byte (number_or_none from)) }
{
    sending[0] = last.0;
    sending[1] = 1;
    sending[2] = from.unwrap_or(0);
    sending[3] = u64::from(from.is_none());
}

// What a call of a sending gave, and the sending's words after it.
fn send_code(
    state: Sending,
    shape: Shape,
    words: &[u64],
    bytes: &[u8],
    sending: &mut [u64],
    out: &mut [u8],
) -> u64
    requires { 4 ≤ length sending.old }
    ensures { SendIs (limit_of state.line) (stored_at shape words.now bytes.now state.place) state.handle state.epoch.0 (ready state.place state.version (sender_of state)) sending.old sending.new out.old out.new result }
{
    match state.send_whole(shape, words, bytes, out) {
        Ok(Some(sent)) => {
            put_sending(sending, sent.next.last, sent.next.from);
            done(sent.len)
        }
        Ok(None) => LAST,
        Err(e) => refusal(e.number(), 0),
    }
}

// The sending that the words stand for, on a line; one that has not begun begins.
fn state_in(
    line: Line,
    version: u16,
    shape: Shape,
    words: &[u64],
    bytes: &[u8],
    sending: &[u64],
    place: usize,
    handle: u32,
    epoch: Epoch,
) -> Result<Sending, Refusal>
    requires { 5 ≤ length sending.now }
    ensures start { start_of result ≡ start_in (limit_of line) version (stored_at shape words.now bytes.now place) place handle epoch.0 sending.now }
    ensures begun_on { BegunOn line result }
{
    let last = CommitNumber(sending[0]);
    if sending[1] == 0 {
        return Sending::begin(
            line, version, shape, words, bytes, place, handle, epoch, last,
        );
    }
    Ok(Sending {
        version,
        place,
        handle,
        epoch,
        last,
        from: (sending[3] == 0).then_some(sending[2]),
        line,
    })
}

// The next frame of a whole sending, in the version that is handed in with each call.
#[unsafe(no_mangle)]
pub extern "C" fn wz_send(
    words: &[u64],
    bytes: &[u8],
    sending: &mut [u64],
    out: &mut [u8],
    sessions: u32,
    c: u32,
    m: u32,
    place: usize,
    handle: u32,
    epoch: u64,
    version: u16,
) -> u64
    ensures { SendsNext version (stored_at (shape_of sessions c m) words.now bytes.now place) place handle epoch sending.old sending.new out.old out.new result }
{
    let shape = Shape {
        places: sessions,
        bytes: c,
        messages: m,
    };
    let Some(line) = line_of(sending) else {
        return refusal(Refusal::RulesBroken.number(), 0);
    };
    let epoch = Epoch(epoch);
    match state_in(
        line, version, shape, words, bytes, sending, place, handle, epoch,
    ) {
        Ok(s) => send_code(s, shape, words, bytes, sending, out),
        Err(e) => refusal(e.number(), 0),
    }
}

// ---- the lag queue: drained, how many wait, 64 numbers

const QUEUE_WORDS: usize = 2 + ReplicatedLog::MAX_QUEUED;

// The numbers from the third on, and one more.
fn numbers(queue: &[u64]) -> [u64; ReplicatedLog::MAX_QUEUED + 1]
    requires { 66 ≤ length queue.now }
    ensures { take 64 result ≡ take 64 (drop 2 queue.now) }
{
    let mut out = [0; ReplicatedLog::MAX_QUEUED + 1];
    out[..ReplicatedLog::MAX_QUEUED].copy_from_slice(&queue[2..QUEUE_WORDS]);
    out
}

// Puts the queue into its words.
fn put_queue(queue: &mut [u64], log: ReplicatedLog)
    requires { 66 ≤ length queue.old }
    ensures { Filled log.drained_through log.count log.queued queue.old queue.new }
{
    queue[0] = log.drained_through;
    queue[1] = log.count as u64;
    queue[2..QUEUE_WORDS].copy_from_slice(&log.queued[..ReplicatedLog::MAX_QUEUED]);
}

// One push.
#[unsafe(no_mangle)]
pub extern "C" fn wz_queue(queue: &mut [u64], max_lag: u64, last: u64) -> u64
    ensures { PushesWords max_lag last queue.old queue.new result }
{
    if queue.len() < QUEUE_WORDS {
        return refusal(Refusal::RulesBroken.number(), 0);
    }
    let log = ReplicatedLog {
        drained_through: queue[0],
        count: queue[1] as usize,
        queued: numbers(queue),
    };
    match log.queue(last, max_lag) {
        Ok(pushed) => {
            put_queue(queue, pushed.log);
            done(pushed.drained)
        }
        Err(refused) => refusal(refused.number(), 0),
    }
}

// ---- the standby's answers

// An answer's frame, in the version that is handed in; 0 bytes for done, 8 for a record that is no answer. The byte area is the store's.
#[unsafe(no_mangle)]
pub extern "C" fn wz_answer(answer: Answer, bytes: &[u8], out: &mut [u8], version: u16) -> u64
    ensures { TellsAnswer version bytes.now answer out.old out.new result }
{
    let protocol = match Protocol::new(version) {
        Ok(protocol) => protocol,
        Err(e) => return refusal(e.number(), 0),
    };
    if answer.refusal != 0 {
        return refusal(answer.refusal, 0);
    }
    if answer.kind == 0 {
        return done(0);
    }
    written(standby_reply::write(protocol, answer, bytes, out))
}

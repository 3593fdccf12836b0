// What a screen shows of a frame: its number and where it begins, what it is, and what was answered.
#![tactic(auto)]

ghost use Rattle.std.specs.Prelude.{◌≡◌, ◌≤◌, ◌++◌, min, length, take, codes};
ghost use Rattle.model_text.specs.Version.{latest};
ghost use Rattle.std.proofs.Math.Option.{some};
ghost use Rattle.model_frame.specs.Reading.{read_change, decode};
ghost use Rattle.model_frame.specs.Frame.{hello, welcome, bind, batch, ack, nack, bound, checked};
ghost use Rattle.model_screen.specs.Columns.{at_left, cut};
ghost use Rattle.model_screen.specs.FrameText.{change_words, changes_words, part_words, reason_words, suffix_words, key_words, frame_words, what_words, brief_words, reply_words, answer_words, frame_line};
ghost use Rattle.frame_op.specs.Answers.{op_of, run_of};
ghost use Rattle.frame_fields.specs.Answers.{part_of, reason_of, key_of, summary_of};
ghost use Rattle.frame.specs.Answers.{batch_of, frame_of};
ghost use Rattle.screen_text.specs.Adding.{Adds, Flows};
ghost use Rattle.screen_text.specs.Told.{Tells};
ghost use Rattle.screen_frame.specs.Starts.{Starts};

use base_refusals::Refusal;
use frame::{Batch, Frame, NackReason, Op, Part, Run, SessionId};
use frame_reader::Reader;
use frame_stamp::Protocol;
use screen_text::Text;

// Bytes enough for any line.
const MOST: usize = 400;

// The column that says what a frame is, and one byte more, by which a text that is too long is known.
const WIDTH: usize = 46;

const MORE: usize = 47;

// ---- changes

fn put_change(text: &mut Text, src: &[u8], op: Op)
    ensures { Adds text.old (change_words (op_of src.now op)) text.new }
{
    match op {
        Op::SetNextIncoming(n) => text.add_number(b" in ", n),
        Op::SetNextIncomingInFlight { seq, in_flight } => {
            text.add_number(b" in ", seq);
            text.add_number(b" flight ", in_flight);
        }
        Op::SetInFlight(n) => text.add_number(b" flight ", n),
        Op::Record(n, message) => {
            text.add_number(b" out ", n);
            text.add_number(b" (", frame_reader::slice(src, message).len() as u64);
            text.add(b")");
        }
        Op::RecordNone(n) => text.add_number(b" skip ", n),
        Op::Reset => text.add(b" reset"),
        Op::SetCreatedAt(stamp) => text.add_words(b" since ", frame_reader::slice(src, stamp)),
        Op::SetMarks(marks) => text.add_words(b" marks ", frame_reader::slice(src, marks)),
    }
}

fn put_changes(text: &mut Text, src: &[u8], run: Run)
    ensures { Adds text.old (changes_words (run_of (read_change latest) src.now run)) text.new }
{
    let mut reader = Reader {
        buf: src,
        at: run.at,
    };
    for _ in 0..run.count {
        let Ok(op) = frame_op::read_op(&mut reader, Protocol::latest()) else {
            return;
        };
        put_change(text, src, op);
    }
}

// ---- frames

fn part_words(part: Part) -> &'static [u8]
    ensures { result.now ≡ part_words (part_of part) }
{
    match part {
        Part::Commit => b"Commit  ",
        Part::Whole => b"Whole   ",
        Part::LastWhole => b"LastWhole ",
    }
}

fn reason_words(reason: NackReason) -> &'static [u8]
    ensures { result.now ≡ reason_words (reason_of reason) }
{
    match reason {
        NackReason::StaleEpoch => b"StaleEpoch",
        NackReason::Diverged => b"Diverged",
        NackReason::Lag => b"Lag",
        NackReason::Restarted => b"Restarted",
    }
}

fn put_suffix(text: &mut Text, suffix: &[u8])
    ensures { Adds text.old (suffix_words suffix.now) text.new }
{
    if 0 < suffix.len() {
        text.add_words(b" / ", suffix);
    }
}

fn put_key(text: &mut Text, src: &[u8], key: SessionId)
    ensures { Adds text.old (key_words (key_of src.now key)) text.new }
{
    text.add_words(b" ", frame_reader::slice(src, key.begin_string));
    text.add_words(b" ", frame_reader::slice(src, key.sender_comp_id));
    text.add_words(b" -> ", frame_reader::slice(src, key.target_comp_id));
    put_suffix(text, frame_reader::slice(src, key.key_suffix));
}

fn put_batch(text: &mut Text, src: &[u8], batch: Batch)
    ensures { Adds text.old (frame_words (batch_of latest src.now batch)) text.new }
{
    text.add_number(part_words(batch.part), u64::from(batch.handle));
    text.add_number(b" #", batch.commit_no.0);
    put_changes(text, src, batch.ops);
}

fn put_frame_words(text: &mut Text, src: &[u8], frame: Frame)
    ensures { Adds text.old (frame_words (frame_of latest src.now frame)) text.new }
{
    match frame {
        Frame::Hello {
            version,
            epoch,
            node,
            ..
        } => {
            text.add_number(b"Hello   epoch ", epoch.0);
            text.add_words(b" node ", frame_reader::slice(src, node));
            text.add_number(b" version ", u64::from(version));
        }
        Frame::Welcome { epoch, incarnation } => {
            text.add_number(b"Welcome epoch ", epoch.0);
            text.add_number(b" incarnation ", incarnation.0);
        }
        Frame::Bind {
            handle,
            max_lag,
            session,
            ..
        } => {
            text.add_number(b"Bind    ", u64::from(handle));
            put_key(text, src, session);
            text.add_number(b" lag ", max_lag);
        }
        Frame::Bound { handle, summary } => {
            text.add_number(b"Bound   ", u64::from(handle));
            text.add_number(b" out ", summary.next_outgoing);
            text.add_number(b" in ", summary.next_incoming);
        }
        Frame::Batch(batch) => put_batch(text, src, batch),
        Frame::Ack { handle, commit_no } => {
            text.add_number(b"Ack     ", u64::from(handle));
            text.add_number(b" #", commit_no.0);
        }
        Frame::Nack { handle, reason } => {
            text.add_number(b"Nack    ", u64::from(handle));
            text.add_words(b" ", reason_words(reason));
        }
        Frame::Checked {
            handle,
            epoch,
            incarnation,
        } => {
            text.add_number(b"Checked ", u64::from(handle));
            text.add_number(b" epoch ", epoch.0);
            text.add_number(b" incarnation ", incarnation.0);
        }
    }
}

fn put_what(text: &mut Text, src: &[u8])
    ensures { Adds text.old (what_words (decode latest src.now)) text.new }
{
    match Frame::decode(Protocol::latest(), src) {
        Ok(Some((frame, _))) => put_frame_words(text, src, frame),
        Ok(None) => text.add(b"cut short"),
        Err(error) => text.add_number(b"can't be read: R ", u64::from(error.number())),
    }
}

// ---- answers

fn put_brief(text: &mut Text, src: &[u8], frame: Frame)
    ensures { Adds text.old (brief_words (frame_of latest src.now frame)) text.new }
{
    match frame {
        Frame::Hello { .. } => text.add(b"Hello"),
        Frame::Welcome { epoch, .. } => text.add_number(b"Welcome ", epoch.0),
        Frame::Bind { .. } => text.add(b"Bind"),
        Frame::Bound { summary, .. } => {
            text.add_number(b"Bound ", summary.next_outgoing);
            text.add_number(b"/", summary.next_incoming);
        }
        Frame::Batch(_) => text.add(b"Batch"),
        Frame::Ack { .. } => text.add(b"Ack"),
        Frame::Nack { reason, .. } => text.add_words(b"Nack ", reason_words(reason)),
        Frame::Checked { .. } => text.add(b"Checked"),
    }
}

fn put_answer(text: &mut Text, refusal: u8, reply: &[u8])
    ensures { Adds text.old (answer_words refusal (decode latest reply.now)) text.new }
{
    if refusal != 0 {
        text.add_number(b"R ", u64::from(refusal));
        return;
    }
    match Frame::decode(Protocol::latest(), reply) {
        Ok(Some((frame, _))) => put_brief(text, reply, frame),
        Ok(None) => text.add(b"none"),
        Err(_) => text.add(b"none"),
    }
}

// ---- the line

fn write_what(src: &[u8], area: &mut [u8; MORE]) -> usize
    ensures { Starts 47 (what_words (decode latest src.now)) area.new result }
{
    let mut text = Text { out: area, at: 0 };
    put_what(&mut text, src);
    text.at
}

fn write_answer(refusal: u8, reply: &[u8], area: &mut [u8; 77]) -> usize
    ensures { Starts 77 (answer_words refusal (decode latest reply.now)) area.new result }
{
    let mut text = Text { out: area, at: 0 };
    put_answer(&mut text, refusal, reply);
    text.at
}

// What a frame is, in its column.
fn flow_what(text: &mut Text, column: usize, src: &[u8]) -> usize
    ensures { Flows text.old column (codes " " ++ at_left 46 (cut 46 (what_words (decode latest src.now)))) text.new result }
{
    let mut area = [0u8; MORE];
    let len = write_what(src, &mut area);
    if len <= WIDTH {
        text.flow(column, b" ", &area[..len], screen_text::spaces(WIDTH - len))
    } else {
        text.flow(column, b" ", &area[..len - 3], b"..")
    }
}

fn put_line(text: &mut Text, number: u64, offset: u64, frame: &[u8], refusal: u8, reply: &[u8])
    ensures { Adds text.old (frame_line number offset (decode latest frame.now) refusal (decode latest reply.now)) text.new }
{
    let mut area = [0u8; 77];
    let len = write_answer(refusal, reply, &mut area);
    let at = text.flow_right(0, b"", 6, number);
    let what = text.flow_right_grouped(at, 9, offset);
    let answer = flow_what(text, what, frame);
    text.flow(answer, &area[..len], b"", b"");
    text.end_line();
}

fn write_line(
    number: u64,
    offset: u64,
    frame: &[u8],
    refusal: u8,
    reply: &[u8],
    area: &mut [u8; MOST],
) -> usize
    ensures { Starts 400 (frame_line number offset (decode latest frame.now) refusal (decode latest reply.now)) area.new result }
{
    let mut text = Text { out: area, at: 0 };
    put_line(&mut text, number, offset, frame, refusal, reply);
    text.at
}

// A frame as it is shown: 9 an area too short, which leaves it as it was.
pub fn put_frame(
    number: u64,
    offset: u64,
    frame: &[u8],
    refusal: u8,
    reply: &[u8],
    out: &mut [u8],
) -> Result<usize, Refusal>
    ensures { Tells (some (frame_line number offset (decode latest frame.now) refusal (decode latest reply.now))) out.old out.new result }
{
    let mut area = [0u8; MOST];
    let len = write_line(number, offset, frame, refusal, reply, &mut area);
    screen_text::tell(&area[..len], out)
}

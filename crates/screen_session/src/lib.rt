// What a screen shows of a stored session: its numbers, its key, what is stored of it.
#![tactic(auto)]

ghost use Rattle.std.specs.Prelude.{◌≡◌, ◌≤◌, ◌<◌, ◌∷◌, [], ◌++◌, min, length, take, codes, decimal};
ghost use Rattle.model_session.specs.Summary.{numbered_from};
ghost use Rattle.model_screen.specs.Columns.{flow, at_right, at_left};
ghost use Rattle.model_screen.specs.SessionText.{last_number, key_parts, suffix_parts, stored_parts, flight_parts, or_words, yes_or_no};
ghost use Rattle.frame_reader.specs.Answers.{span_of};
ghost use Rattle.frame_fields.specs.Answers.{flight_of};
ghost use Rattle.store_place.specs.Keys.{lent_key};
ghost use Rattle.store_areas.specs.Areas.{place_at, used_of};
ghost use Rattle.store_sessions.specs.Answers.{PositionAt, rest_at};
ghost use Rattle.screen_text.specs.Adding.{Adds};
ghost use Rattle.screen_text.specs.Told.{Tells};
ghost use Rattle.screen_session.specs.Shown.{shown_lines, WritesText, screen_at};

use base_refusals::Refusal;
use frame_fields::Summary;
use screen_text::Text;
use store_areas::{Shape, View};
use store_log::LogPosition;
use store_place::Key;

// Bytes enough for any session.
const MOST: usize = 1_500;

// ---- the key

fn put_suffix(text: &mut Text, column: usize, suffix: &[u8])
    ensures { Adds text.old (flow column (suffix_parts suffix.now)) text.new }
{
    if 0 < suffix.len() {
        text.flow(column, b"/ ", suffix, b"");
    }
    text.end_line();
}

fn put_key(text: &mut Text, place: usize, key: &Key)
    ensures { Adds text.old (flow 0 (key_parts place (lent_key key.now))) text.new }
{
    let number = text.flow_right(0, b"", 2, place as u64);
    let begin = text.flow(number, b" ", key.begin, b"");
    let sender = text.flow(begin, b" ", key.sender, b"");
    let target = text.flow(sender, b"-> ", key.target, b"");
    put_suffix(text, target, key.suffix);
}

// ---- outgoing

// The number of the last message from a position on; n if there is none.
fn last_number(view: &View, place: usize, n: u64, position: LogPosition) -> u64
    requires used { place < used_of view.now.words.now }
    requires stands { PositionAt view.now.shape view.now.words.now view.now.bytes.now place position.left position.dist }
    ensures { result ≡ last_number n (rest_at view.now.shape view.now.words.now view.now.bytes.now place position.left) }
{
    let mut last = n;
    let mut from = position;
    while 0 < from.left {
        let message = store_sessions::message_at(view, place, from);
        last = message.number;
        from = message.next;
    }
    last
}

fn put_stored(text: &mut Text, column: usize, view: &View, place: usize)
    requires { place < used_of view.now.words.now }
    ensures { Adds text.old (flow column (stored_parts (numbered_from 1 (place_at view.now.shape view.now.words.now view.now.bytes.now place).stored.session.messages))) text.new }
{
    let all = store_sessions::messages_from(view, place, 1);
    if all.left == 0 {
        text.flow(column, b"   stored      none", b"", b"");
        text.end_line();
        return;
    }
    let first = store_sessions::message_at(view, place, all);
    let last = last_number(view, place, first.number, first.next);
    let from = text.flow_number(column, b"   stored      ", first.number, b"");
    let to = text.flow_number(from, b"to ", last, b":");
    let count = text.flow_grouped(to, all.left as u64, b",");
    text.flow_grouped(count, all.dist as u64, b" bytes");
    text.end_line();
}

fn put_outgoing(text: &mut Text, next: u64, view: &View, place: usize)
    requires { place < used_of view.now.words.now }
    ensures { Adds text.old (flow 0 ((codes "      next outgoing " ++ at_right 12 (decimal next)) ∷ stored_parts (numbered_from 1 (place_at view.now.shape view.now.words.now view.now.bytes.now place).stored.session.messages))) text.new }
{
    let column = text.flow_right(0, b"      next outgoing ", 12, next);
    put_stored(text, column, view, place);
}

// ---- incoming

fn put_flight(text: &mut Text, column: usize, in_flight: Option<u64>)
    ensures { Adds text.old (flow column (flight_parts (flight_of in_flight))) text.new }
{
    match in_flight {
        Some(n) => {
            let number = text.flow_number(column, b"   in flight   ", n, b":");
            let handed = text.flow(number, b"handed over,", b"", b"");
            text.flow(handed, b"not yet counted", b"", b"");
        }
        None => {
            text.flow(column, b"   in flight   none", b"", b"");
        }
    }
    text.end_line();
}

fn put_incoming(text: &mut Text, next: u64, in_flight: Option<u64>)
    ensures { Adds text.old (flow 0 ((codes "      next incoming " ++ at_right 12 (decimal next)) ∷ flight_parts (flight_of in_flight))) text.new }
{
    let column = text.flow_right(0, b"      next incoming ", 12, next);
    put_flight(text, column, in_flight);
}

// ---- texts and marks

// A text, or words where it is empty.
fn or_words<'a>(words: &'a [u8], s: &'a [u8]) -> &'a [u8]
    ensures { result.now ≡ or_words words.now s.now }
{
    if s.is_empty() { words } else { s }
}

fn put_texts(text: &mut Text, created_at: &[u8], marks: &[u8])
    ensures { Adds text.old (flow 0 ((codes "      since " ++ at_left 20 (or_words (codes "no time") created_at.now)) ∷ codes "   marks      " ∷ or_words (codes "none") marks.now ∷ [])) text.new }
{
    let since = text.flow_left(0, b"      since ", 20, or_words(b"no time", created_at));
    let label = text.flow(since, b"   marks      ", b"", b"");
    text.flow(label, or_words(b"none", marks), b"", b"");
    text.end_line();
}

fn put_durable(text: &mut Text, durable: bool)
    ensures { Adds text.old (flow 0 ((codes "      durable " ++ yes_or_no durable) ∷ [])) text.new }
{
    let word: &[u8] = if durable { b"yes" } else { b"no" };
    text.flow(0, b"      durable ", word, b"");
    text.end_line();
}

// ---- the session

fn put_lines(text: &mut Text, view: &View, place: usize)
    requires { place < used_of view.now.words.now }
    ensures { Adds text.old (shown_lines view.now.shape view.now.words.now view.now.bytes.now place) text.new }
{
    let summary = store_sessions::summary_of(view, place, 0);
    put_key(text, place, &view.place(place).key());
    put_outgoing(text, summary.next_outgoing, view, place);
    put_incoming(text, summary.next_incoming, summary.in_flight);
    put_texts(
        text,
        frame_reader::slice(view.bytes, summary.created_at),
        frame_reader::slice(view.bytes, summary.marks),
    );
    put_durable(text, store_sessions::durable(view, place));
}

fn write_lines(view: &View, place: usize, area: &mut [u8; MOST]) -> usize
    requires { place < used_of view.now.words.now }
    ensures { WritesText (shown_lines view.now.shape view.now.words.now view.now.bytes.now place) area.new result }
{
    let mut text = Text { out: area, at: 0 };
    put_lines(&mut text, view, place);
    text.at
}

// The areas and the shape come apart, as C lends them.
// The session at a place as it is shown: 25 broken rules or a place that is not in use, 9 an area too short; both leave the area as it was.
pub fn put_session(
    words: &[u64],
    bytes: &[u8],
    shape: Shape,
    place: usize,
    out: &mut [u8],
) -> Result<usize, Refusal>
    ensures { Tells (screen_at shape words.now bytes.now place) out.old out.new result }
{
    let view = View::with_place(shape, words, bytes, place)?;
    let mut area = [0u8; MOST];
    let len = write_lines(&view, place, &mut area);
    screen_text::tell(&area[..len], out)
}

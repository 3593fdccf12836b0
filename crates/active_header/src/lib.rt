// What a session that is sent whole has beside its messages: the changes that stand before them and after them.
#![tactic(auto)]

pub mod header;

ghost use Rattle.std.specs.Prelude.{◌≡◌, List, [], ◌∷◌, ℕ, ◌+◌, ◌≤◌, ◌<◌, length, eqb};
ghost use Rattle.model_frame.specs.Parse.{run_bytes};
ghost use Rattle.model_frame.specs.Writing.{change_bytes};
ghost use Rattle.model_frame.specs.Sizes.{size_of, sizes};
ghost use Rattle.model_session.specs.Whole.{incoming_part};
ghost use Rattle.base_bytes.specs.Put.{Put};
ghost use Rattle.store_place.specs.Place.{flight_is};
ghost use Rattle.active_header.specs.Ends.{Heads, Spans, opening_of, closing_of, closing_with, ending_of, ending_with};
ghost use Rattle.store_place.specs.PlaceByte;

use active_messages::{Extent, put};
use base_bytes::Writer;
use frame_op::kind;
use header::Header;

// By slices: it asks for the words and bytes of a place without its messages, and a Place would ask more.
pub fn header_of<'a>(words: &[u64], bytes: &'a [u8]) -> Header<'a>
    requires in_bounds { 16 ≤ length words.now }
    requires in_bounds_2 { PlaceByte.ring ≤ length bytes.now }
    ensures { Heads words.now bytes.now result }
{
    Header {
        next_outgoing: store_place::next_outgoing(words),
        next_incoming: store_place::next_incoming(words),
        in_flight: store_place::in_flight(words),
        stamp: store_place::stamp(words, bytes),
        marks: store_place::marks(words, bytes),
    }
}

// ---- what stands before the messages

// An extent depends on the length of a text alone, so it is promised for every text of that length.

pub fn opening_extent(header: &Header, from: u64) -> Extent
    ensures spans { (text : List ℕ) → length text ≡ length header.now.stamp.now → Spans (opening_of text from) result.count result.size }
    ensures small { (result.count ≤ 2) × (result.size ≤ 38) }
{
    if 0 < from {
        return Extent { count: 0, size: 0 };
    }
    if header.stamp.is_empty() {
        return Extent { count: 1, size: 1 };
    }
    Extent {
        count: 2,
        size: 6 + header.stamp.len(),
    }
}

pub fn put_opening(header: &Header, from: u64, writer: &mut Writer)
    requires { writer.old.at + sizes (opening_of header.now.stamp.now from) ≤ length writer.old.out.now }
    ensures { Put writer.old (run_bytes change_bytes (opening_of header.now.stamp.now from)) writer.new }
{
    if 0 < from {
        return;
    }
    writer.byte(kind::RESET);
    if header.stamp.is_empty() {
        return;
    }
    put::put_text(kind::SET_CREATED_AT, header.stamp, writer);
}

// ---- what stands after them

fn incoming_size(in_flight: Option<u64>) -> usize
    ensures is { (n : ℕ) → result ≡ size_of (incoming_part n (flight_is in_flight)) }
    ensures small { result ≤ 17 }
{
    match in_flight {
        None => 9,
        Some(_) => 17,
    }
}

fn put_incoming(next: u64, in_flight: Option<u64>, writer: &mut Writer)
    requires { writer.old.at + size_of (incoming_part next (flight_is in_flight)) ≤ length writer.old.out.now }
    ensures { Put writer.old (change_bytes (incoming_part next (flight_is in_flight))) writer.new }
{
    match in_flight {
        None => writer.tagged(kind::SET_NEXT_INCOMING, next),
        Some(f) => {
            writer.tagged(kind::SET_NEXT_INCOMING_IN_FLIGHT, next);
            writer.number(f);
        }
    }
}

fn closing_extent(header: &Header, next: u64) -> Extent
    ensures spans { (text : List ℕ) → length text ≡ length header.now.marks.now → Spans (closing_with header.now text next) result.count result.size }
    ensures small { (result.count ≤ 3) × (result.size ≤ 95) }
{
    let size = incoming_size(header.in_flight) + 5 + header.marks.len();
    if next < header.next_outgoing {
        return Extent {
            count: 3,
            size: size + 9,
        };
    }
    Extent { count: 2, size }
}

fn put_closing(header: &Header, next: u64, writer: &mut Writer)
    requires { writer.old.at + sizes (closing_of header.now next) ≤ length writer.old.out.now }
    ensures { Put writer.old (run_bytes change_bytes (closing_of header.now next)) writer.new }
{
    put::put_skip(next, header.next_outgoing, writer);
    put_incoming(header.next_incoming, header.in_flight, writer);
    put::put_text(kind::SET_MARKS, header.marks, writer);
}

// ---- and only in the last batch

// What stands after the messages, where so many are left.
pub fn ending_extent(header: &Header, left: usize, next: u64) -> Extent
    ensures spans { (text : List ℕ) → length text ≡ length header.now.marks.now → Spans (ending_with header.now text (eqb left 0) next) result.count result.size }
    ensures small { (result.count ≤ 3) × (result.size ≤ 95) }
{
    if left == 0 {
        closing_extent(header, next)
    } else {
        Extent { count: 0, size: 0 }
    }
}

pub fn put_ending(header: &Header, last: bool, next: u64, writer: &mut Writer)
    requires { writer.old.at + sizes (ending_of header.now last next) ≤ length writer.old.out.now }
    ensures { Put writer.old (run_bytes change_bytes (ending_of header.now last next)) writer.new }
{
    if last {
        put_closing(header, next, writer);
    }
}

// The changes held of a session that is sent whole: segments of a hold area, closed ones and behind them the open one.
#![tactic(auto)]

ghost use Rattle.std.specs.Prelude.{◌≡◌, ◌≤◌, length, set};
ghost use Rattle.model_frame.specs.Parse.{is_empty};
ghost use Rattle.model_frame.specs.Sizes.{sizes};
ghost use Rattle.standby_segments.specs.Segments.{closed_ends, open_from, held_changes, end_for, ends_after};
ghost use Rattle.standby_segments.specs.Steps.{all_of, run_of, EndAt, BeginsOps, segments_left};

mod fits;
mod segment_ops;
pub mod segments;
mod walk;

use frame_reader::Reader;
use frame_stamp::Protocol;
pub use segments::{HeldChanges, Segment, SegmentOps, Segments};
use standby_changes::Changes;

// The open segment: its index, for so many closed ones stand before it, and where it begins.
#[derive(Clone, Copy, Debug, PartialEq, Eq)]
pub struct OpenSegment {
    pub index: usize,
    pub from: usize,
}

// A segment is closed when it has so many bytes.
pub const SEGMENT_BYTES: usize = 65_536;

// The end at an index, if the word there counts: it is above the one before it, and within the length held.
fn end_at(ends: &[u64], index: usize, from: usize, len: usize) -> Option<usize>
    ensures { EndAt ends.now index from len result }
{
    let end = *ends.get(index)? as usize;
    if end <= from {
        return None;
    }
    if len < end {
        return None;
    }
    Some(end)
}

// The open segment of a hold area of which so many bytes are held.
pub fn open_segment(ends: &[u64], len: usize) -> OpenSegment
    ensures index { result.index ≡ length (closed_ends ends.now 0 len) }
    ensures from { result.from ≡ open_from 0 (closed_ends ends.now 0 len) }
    ensures within { result.from ≤ len }
{
    let mut segment = OpenSegment { index: 0, from: 0 };
    while let Some(end) = end_at(ends, segment.index, segment.from, len) {
        segment = OpenSegment {
            index: segment.index + 1,
            from: end,
        };
    }
    segment
}

// The words that count, of a hold area of which so many bytes are held.
pub fn closed_ends(ends: &[u64], len: usize) -> &[u64]
    ensures { result.now ≡ closed_ends ends.now 0 len }
{
    &ends[..open_segment(ends, len).index]
}

// How many of these bytes the changes held there take: the closed segments are not read.
pub fn held_length(protocol: Protocol, bytes: &[u8], ends: &[u64]) -> usize
    ensures is { result ≡ sizes (held_changes protocol.version ends.now bytes.now) }
    ensures within { result ≤ length bytes.now }
{
    let from = open_segment(ends, bytes.len()).from;
    from + Changes::new(protocol, &bytes[from..]).run_length()
}

// The word of an open segment that ends at `len`: its end if it is long enough to be closed, else 0.
fn end_for(from: usize, len: usize) -> u64
    ensures { result ≡ end_for from len }
{
    if SEGMENT_BYTES <= len.saturating_sub(from) {
        len as u64
    } else {
        0
    }
}

// After a Whole: writes the word of the open segment, that ends at `len` now, if there is one for it.
pub fn write_end(ends: &mut [u64], segment: OpenSegment, len: usize)
    ensures { ends.new ≡ set ends.old segment.index (end_for segment.from len) }
{
    if segment.index < ends.len() {
        ends[segment.index] = end_for(segment.from, len);
    }
}

// After a Whole that made `len` bytes of the `held` that were held: the words of the hold area.
pub fn close(ends: &mut [u64], held: usize, len: usize)
    ensures { ends.new ≡ ends_after ends.old held len }
{
    let segment = open_segment(ends, held);
    write_end(ends, segment, len);
}

impl<'a> HeldChanges<'a> {
    // What is held in some bytes, with these words.
    pub fn new<'b>(protocol: Protocol, bytes: &'b [u8], ends: &'b [u64]) -> HeldChanges<'b>
        ensures protocol { result.protocol ≡ protocol }
        ensures bytes { result.bytes.now ≡ bytes.now }
        ensures ends { result.ends.now ≡ ends.now }
    {
        HeldChanges {
            protocol,
            bytes,
            ends,
        }
    }

    // The open segment.
    pub fn open_segment(&self) -> OpenSegment
        ensures index { result.index ≡ length (closed_ends self.now.ends.now 0 (length self.now.bytes.now)) }
        ensures from { result.from ≡ open_from 0 (closed_ends self.now.ends.now 0 (length self.now.bytes.now)) }
        ensures within { result.from ≤ length self.now.bytes.now }
    {
        open_segment(self.ends, self.bytes.len())
    }

    // No change is held: no segment is closed, and the first change of the open one can't be read.
    #[inline(never)]
    pub fn is_none(&self) -> bool
        ensures { result ≡ is_empty (all_of self.now) }
    {
        // With no bytes the words aren't read: a Commit asks this of every handle.
        if self.bytes.is_empty() {
            return true;
        }
        self.open_segment().from == 0 && Changes::new(self.protocol, self.bytes).is_none()
    }

    // The segments, the open one last.
    pub fn segments(&self) -> Segments<'a>
        ensures held { result.held ≡ self.now }
        ensures whole { segments_left result ≡ all_of self.now }
    {
        Segments {
            held: *self,
            index: 0,
            from: 0,
            done: false,
        }
    }
}

impl<'a> Segment<'a> {
    // Its changes, one after the other.
    pub fn iter(&self) -> SegmentOps<'a>
        ensures { BeginsOps self.now result }
    {
        SegmentOps {
            reader: Reader {
                buf: self.bytes,
                at: 0,
            },
            protocol: self.protocol,
            closed: self.closed,
        }
    }
}

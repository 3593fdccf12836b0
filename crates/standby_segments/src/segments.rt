// The changes held, and their segments.

ghost use Rattle.std.specs.Prelude.{◌≤◌, length};
ghost use Rattle.frame_reader.specs.Answers.{rest};
ghost use Rattle.standby_changes.specs.Held.{AreBytes};

use frame_reader::Reader;
use frame_stamp::Protocol;

// What is held in the first bytes of a hold area, with the words that say where its closed segments end.
#[derive(Clone, Copy)]
pub struct HeldChanges<'a> {
    pub protocol: Protocol,
    pub bytes: &'a [u8],
    pub ends: &'a [u64],
    ghost octets: { AreBytes bytes.now },
}

// The segments that are still to come.
#[derive(Drop)]
pub struct Segments<'a> {
    pub held: HeldChanges<'a>,
    pub index: usize,
    pub from: usize,
    pub done: bool,
    ghost within: { from ≤ length held.bytes.now },
}

// A segment: in a closed one every byte counts, in the open one the bytes up to the first that is no change.
#[derive(Clone, Copy)]
pub struct Segment<'a> {
    pub protocol: Protocol,
    pub bytes: &'a [u8],
    pub closed: bool,
    ghost octets: { AreBytes bytes.now },
}

// The changes of a segment that are still to be read.
#[derive(Drop)]
pub struct SegmentOps<'a> {
    pub reader: Reader<'a>,
    pub protocol: Protocol,
    pub closed: bool,
    ghost octets: { AreBytes (rest reader) },
}

// A run of changes with the protocol under which it is read.

ghost use Rattle.frame_reader.specs.Answers.{rest};
ghost use Rattle.standby_changes.specs.Held.{AreBytes, TakesAll};

use frame_reader::Reader;
use frame_stamp::Protocol;

// The changes that can be read one after the other from the start of some bytes.
#[derive(Clone, Copy)]
pub struct Changes<'a> {
    pub protocol: Protocol,
    pub run: &'a [u8],
    ghost octets: { AreBytes run.now },
}

// The changes that are still to be read.
#[derive(Drop)]
pub struct Ops<'a> {
    pub reader: Reader<'a>,
    pub protocol: Protocol,
    ghost octets: { AreBytes (rest reader) },
}

// Changes that take all of their bytes.
#[derive(Clone, Copy)]
pub struct AllChanges<'a> {
    pub changes: Changes<'a>,
    ghost takes_all: { TakesAll changes.protocol.version changes.run.now },
}

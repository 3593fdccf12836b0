// The refusals by their numbers, "Turned down, by operation", and one number of the store's own.
#![tactic(auto)]

ghost use Rattle.std.specs.Prelude.{◌≡◌};
ghost use Rattle.base_refusals.specs.Numbers.{number_of};

// Why something was turned down. Each has the number that callers in C and the lines of `frames` are given.
#[derive(Clone, Copy, Debug, PartialEq, Eq)]
pub enum Refusal {
    // Body length too great; in writing, body too long.
    TooLong = 1,
    // Field or count too long for what is left, or bytes left over.
    Truncated = 2,
    // Unknown byte.
    UnknownByte = 3,
    // Not UTF-8.
    BadText = 4,
    // Key.
    BadSession = 5,
    // Stamp.
    BadTimestamp = 6,
    // Marks.
    BadMarks = 7,
    // A field that reading would refuse.
    Unreadable = 8,
    // Output area too short.
    NoRoom = 9,
    // Promoted.
    Promoted = 10,
    // Version not 1 or 2.
    BadVersion = 11,
    // Kinds listed.
    KindsListed = 12,
    // Application records.
    AppRecords = 13,
    // Unbound.
    Unbound = 14,
    // While changes are held.
    ChangesHeld = 15,
    // Nothing held and no Reset in front.
    NoReset = 16,
    // Held messages above 4,294,967,296 bytes.
    TooManyBytes = 17,
    // The held changes and this batch's outgrow the hold area.
    HoldAreaFull = 18,
    // A frame of another kind.
    OtherFrame = 19,
    // No free session place for a new key.
    NoSessionPlace = 20,
    // No free handle place for a new handle.
    NoHandlePlace = 21,
    // Other connection, or promoted.
    OtherConnection = 22,
    // Unchecked.
    Unchecked = 23,
    // Commit numbers would pass 2^64 - 1.
    NumbersPast = 24,
    // A lent area or a state handed in breaks the rules of docs/AREAS.md, or the session isn't stored.
    RulesBroken = 25,
    // Not just one whole frame; of a line: bad digit, odd, empty or long, or not just one whole frame.
    NotOneFrame = 26,
    // A 257th session in the books of a catch-up.
    TooManySessions = 27,
    // Of a message log: a field fault.
    FieldFault = 28,
    // Of a message log: a false length or sum.
    FalseLengthOrSum = 29,
    // Of a message log: a number that doesn't rise.
    NumberNotRising = 30,
    // Of a lease: a time below the last one handed in, or an outcome before its start.
    TimeFalls = 31,
    // A long stamp, which version 1 doesn't take.
    LongStamp = 32,
    // Of a stamp that is to become a number: a year before 1970 or a second 60.
    StampWithoutNumber = 33,
    // Of a number that is to become a stamp: past 31 December 9999, or a remainder too large.
    NumberWithoutStamp = 34,
    // Of a resend: ranges that are none, or too many.
    BadRanges = 35,
    // Of a resend: the answer area has fewer entries than the list.
    TooFewEntries = 36,
    // Of a quorum: an n or k outside theirs, an unknown member, an unbound handle, a 257th handle.
    OutsideQuorum = 37,
    // Of a quorum: a number sent that isn't the last plus 1, an Ack of one not sent since the binding.
    OutOfSequence = 38,
    // No copy fits.
    NoneFits = 39,
    // An outgoing number that can't be recorded: below the next one, or 2^64 - 1. The documents, whose numbers are 1 to 39, have none for it.
    NumberNotRecorded = 40,
}

impl Refusal {
    // The number.
    pub fn number(self) -> u8
        ensures { result ≡ number_of self }
    {
        self as u8
    }
}

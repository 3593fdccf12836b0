// Reading numbers, blobs, texts and counts off a buffer, from a position on.
#![tactic(auto)]

ghost use Rattle.std.specs.Prelude.{◌≡◌, ◌+◌, ◌-◌, ◌≤◌, cond, ◌||◌, length, take, drop, IfOk};
ghost use Rattle.model_text.specs.Utf8.{utf8};
ghost use Rattle.model_text.specs.Printable.{is_printable};
ghost use Rattle.model_text.specs.Stamp.{takes_stamp};
ghost use Rattle.model_frame.specs.Frame.{bad_text, fault_number};
ghost use Rattle.model_frame.specs.Parse.{ok, bad, is_empty, read_num, read_blob, read_text, read_count};
ghost use Rattle.model_frame.specs.Reading.{read_stamp, read_stamp_or_none, read_marks};
ghost use Rattle.base_refusals.specs.Numbers.{number_of};
ghost use Rattle.frame_reader.specs.Answers.{invalid_of, fault_of, span_of, rest, res, Lies};

use base_bytes::LittleEndian;
use base_refusals::Refusal;
use frame_stamp::Protocol;

// A part of the buffer, by its position: callers in C get positions.
#[repr(C)]
#[derive(Clone, Copy, Debug, PartialEq, Eq)]
pub struct Span {
    pub at: usize,
    pub len: u32,
}

// What has an unknown byte.
#[derive(Clone, Copy, Debug, PartialEq, Eq)]
pub enum Field {
    FrameKind,
    Part,
    Refusal,
    Change,
}

// What isn't valid.
#[derive(Clone, Copy, Debug, PartialEq, Eq)]
pub enum Value {
    Text,
    Session,
    Timestamp,
    Marks,
}

// A frame that can't be decoded.
#[derive(Clone, Copy, Debug, PartialEq, Eq)]
pub enum FrameError {
    TooLong(u32),
    Unknown(Field, u8),
    Truncated,
    Invalid(Value),
}

impl From<FrameError> for Refusal {
    ghost from_gives = { λ error refusal. number_of refusal ≡ fault_number (fault_of error) };

    fn from(error: FrameError) -> Refusal {
        match error {
            FrameError::TooLong(_) => Refusal::TooLong,
            FrameError::Truncated => Refusal::Truncated,
            FrameError::Unknown(_, _) => Refusal::UnknownByte,
            FrameError::Invalid(Value::Text) => Refusal::BadText,
            FrameError::Invalid(Value::Session) => Refusal::BadSession,
            FrameError::Invalid(Value::Timestamp) => Refusal::BadTimestamp,
            FrameError::Invalid(Value::Marks) => Refusal::BadMarks,
        }
    }
}

impl FrameError {
    // The refusal's number, which is what C is given.
    pub fn number(self) -> u8
        ensures { result ≡ fault_number (fault_of self) }
    {
        Refusal::from(self).number()
    }
}

// So many bytes from a position on: as many of them as the buffer has, which no method of slices gives.
pub fn bytes_at(buf: &[u8], at: usize, len: usize) -> &[u8]
    ensures { result.now ≡ take len (drop at buf.now) }
{
    if buf.len() <= at {
        return &buf[..0];
    }
    if len <= buf.len() - at {
        &buf[at..at + len]
    } else {
        &buf[at..]
    }
}

// The bytes of a part.
pub fn slice(buf: &[u8], span: Span) -> &[u8]
    ensures { result.now ≡ span_of buf.now span }
{
    bytes_at(buf, span.at, span.len as usize)
}

// A stamp, or the empty text, which stands for none.
pub fn is_stamp_or_none(protocol: Protocol, s: &[u8]) -> bool
    ensures { result ≡ (is_empty s.now || takes_stamp protocol.version s.now) }
{
    s.is_empty() || frame_stamp::takes_stamp(protocol, s)
}

// Where reading stands in a buffer. What is read moves it on; after a fault it stands anywhere.
#[derive(Clone, Copy, Debug)]
pub struct Reader<'a> {
    pub buf: &'a [u8],
    pub at: usize,
}

impl<'a> Reader<'a> {
    // How many bytes are left.
    pub fn left(&self) -> usize
        ensures { result ≡ length self.now.buf.now - self.now.at }
    {
        self.buf.len().saturating_sub(self.at)
    }

    pub fn number<T: LittleEndian>(&mut self) -> Result<T, FrameError>
        ensures read { res T.value self.new result ≡ read_num T.WIDTH (rest self.old) }
        ensures same { self.new.buf.now ≡ self.old.buf.now }
        ensures within { IfOk result (λ _. self.new.at ≤ length self.old.buf.now) }
    {
        if self.left() < T::WIDTH {
            return Err(FrameError::Truncated);
        }
        let number = T::read_at(self.buf, self.at);
        self.at += T::WIDTH;
        Ok(number)
    }

    // A blob, as the part of the buffer where its bytes stand: they are not looked at.
    pub fn blob(&mut self) -> Result<Span, FrameError>
        ensures read { res (span_of self.old.buf.now) self.new result ≡ read_blob (rest self.old) }
        ensures same { self.new.buf.now ≡ self.old.buf.now }
        ensures lies { IfOk result (Lies self.old.buf.now) }
    {
        let len = self.number::<u32>()?;
        if self.left() < len as usize {
            return Err(FrameError::Truncated);
        }
        let at = self.at;
        self.at += len as usize;
        Ok(Span { at, len })
    }

    pub fn text(&mut self) -> Result<Span, FrameError>
        ensures read { res (span_of self.old.buf.now) self.new result ≡ read_text (rest self.old) }
        ensures same { self.new.buf.now ≡ self.old.buf.now }
        ensures lies { IfOk result (Lies self.old.buf.now) }
    {
        let span = self.blob()?;
        if frame_utf8::is_utf8(slice(self.buf, span)) {
            Ok(span)
        } else {
            Err(FrameError::Invalid(Value::Text))
        }
    }

    // A text that was judged by a rule which only UTF-8 meets: where it breaks the rule, whether it is UTF-8 decides the fault.
    fn judged(&self, span: Span, valid: bool, value: Value) -> Result<Span, FrameError>
        ensures read { res (span_of self.now.buf.now) self.now result ≡ cond valid (ok (span_of self.now.buf.now span) (rest self.now)) (bad (cond (utf8 (span_of self.now.buf.now span)) (invalid_of value) bad_text)) }
        ensures given { IfOk result (λ s. s ≡ span) }
    {
        if valid {
            return Ok(span);
        }
        if frame_utf8::is_utf8(slice(self.buf, span)) {
            Err(FrameError::Invalid(value))
        } else {
            Err(FrameError::Invalid(Value::Text))
        }
    }

    pub fn stamp(&mut self, protocol: Protocol) -> Result<Span, FrameError>
        ensures read { res (span_of self.old.buf.now) self.new result ≡ read_stamp protocol.version (rest self.old) }
        ensures same { self.new.buf.now ≡ self.old.buf.now }
        ensures lies { IfOk result (Lies self.old.buf.now) }
    {
        let span = self.blob()?;
        let valid = frame_stamp::takes_stamp(protocol, slice(self.buf, span));
        self.judged(span, valid, Value::Timestamp)
    }

    pub fn stamp_or_none(&mut self, protocol: Protocol) -> Result<Span, FrameError>
        ensures read { res (span_of self.old.buf.now) self.new result ≡ read_stamp_or_none protocol.version (rest self.old) }
        ensures same { self.new.buf.now ≡ self.old.buf.now }
        ensures lies { IfOk result (Lies self.old.buf.now) }
    {
        let span = self.blob()?;
        let valid = is_stamp_or_none(protocol, slice(self.buf, span));
        self.judged(span, valid, Value::Timestamp)
    }

    pub fn marks(&mut self) -> Result<Span, FrameError>
        ensures read { res (span_of self.old.buf.now) self.new result ≡ read_marks (rest self.old) }
        ensures same { self.new.buf.now ≡ self.old.buf.now }
        ensures lies { IfOk result (Lies self.old.buf.now) }
    {
        let span = self.blob()?;
        let valid = frame_stamp::is_marks(slice(self.buf, span));
        self.judged(span, valid, Value::Marks)
    }

    // A text, and whether it has lo to hi printable bytes, the key's rule for one of its texts: both come back, since a later text's fault goes before
    // a break of this rule.
    pub fn checked_text(&mut self, lo: usize, hi: usize) -> Result<(Span, bool), FrameError>
        ensures read { res (λ s. span_of self.old.buf.now s.0) self.new result ≡ read_text (rest self.old) }
        ensures judged { IfOk result (λ s. s.1 ≡ is_printable lo hi (span_of self.old.buf.now s.0)) }
        ensures same { self.new.buf.now ≡ self.old.buf.now }
        ensures lies { IfOk result (λ s. Lies self.old.buf.now s.0) }
    {
        let span = self.blob()?;
        if frame_stamp::is_printable(slice(self.buf, span), lo, hi) {
            return Ok((span, true));
        }
        if frame_utf8::is_utf8(slice(self.buf, span)) {
            Ok((span, false))
        } else {
            Err(FrameError::Invalid(Value::Text))
        }
    }

    // A count of items that need at least `min` bytes each in what is left.
    pub fn count(&mut self, min: u32) -> Result<u32, FrameError>
        ensures read { res (λ n. n) self.new result ≡ read_count min (rest self.old) }
        ensures same { self.new.buf.now ≡ self.old.buf.now }
    {
        let count = self.number::<u32>()?;
        if (count as u64) * (min as u64) <= (self.left() as u64) {
            Ok(count)
        } else {
            Err(FrameError::Truncated)
        }
    }
}

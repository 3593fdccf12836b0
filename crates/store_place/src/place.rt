// A place as it is read: its words, its bytes and the room for messages.
ghost use Rattle.std.specs.Prelude.{◌≡◌, ℕ, ◌+◌, ◌-◌, ◌*◌, ◌≤◌, length, drop};
ghost use Rattle.model_session.specs.Session.{suits};
ghost use Rattle.model_session.specs.Summary.{last_out};
ghost use Rattle.store_place.specs.Keys.{lent_key};
ghost use Rattle.store_place.specs.Place.{next_out_of, stamp_of, stored_key, session_of, PositionIn, FromIn, NextMessageIn};
ghost use Rattle.store_place.specs.PlaceByte;
ghost use Rattle.store_place.specs.PlaceWord;

use crate::{Key, byte, key_in, next_outgoing, stamp, word};
use frame_stamp::{LONGEST_SHORT, Protocol};
use store_log::log::Log;
use store_log::{FoundMessage, LogPosition};

#[derive(Clone, Copy)]
pub struct Place<'a> {
    pub words: &'a [u64],
    pub bytes: &'a [u8],
    pub max: usize,
    ghost words_long: { PlaceWord.entries + 2 * max ≤ length words.now },
    ghost bytes_long: { PlaceByte.ring ≤ length bytes.now },
}

impl<'a> Place<'a> {
    // The session's key.
    pub fn key(&self) -> Key<'a>
        ensures { lent_key result ≡ stored_key self.now.words.now self.now.bytes.now }
    {
        key_in(self.words, self.bytes)
    }

    // Whether reading takes the session's stamp in this version, if it has one. Most often the length that is stored tells it: a stamp is never longer.
    pub fn suits(&self, protocol: Protocol) -> bool
        ensures { result ≡ suits protocol.version (stamp_of self.now.words.now self.now.bytes.now) }
    {
        if protocol.version == Protocol::LATEST {
            return true;
        }
        self.words[word::STAMP_LEN] <= LONGEST_SHORT as u64
            || stamp(self.words, self.bytes).len() <= LONGEST_SHORT
    }

    // The session's log.
    pub fn log(&self) -> Log<'a>
        ensures words { result.words.now ≡ drop PlaceWord.log self.now.words.now }
        ensures bytes { result.bytes.now ≡ drop PlaceByte.ring self.now.bytes.now }
        ensures room { PlaceByte.ring + length result.bytes.now ≡ length self.now.bytes.now }
        ensures max { result.max ≡ self.now.max }
        ensures next { result.next ≡ next_out_of self.now.words.now }
    {
        Log {
            words: &self.words[word::LOG..],
            bytes: &self.bytes[byte::RING..],
            max: self.max,
            next: next_outgoing(self.words),
        }
    }

    // last_outgoing over n.
    pub fn last_outgoing(&self, n: u64) -> u64
        ensures { (C : ℕ) → length self.now.bytes.now ≡ PlaceByte.ring + C → result ≡ last_out (session_of C self.now.max self.now.words.now self.now.bytes.now) n }
    {
        self.log().last_outgoing(n)
    }

    // The position in the log where the messages with numbers from low begin.
    pub fn position_from(&self, low: u64) -> LogPosition
        requires { 1 ≤ low }
        ensures { (C : ℕ) → length self.now.bytes.now ≡ PlaceByte.ring + C → FromIn C self.now.max low self.now.words.now self.now.bytes.now result.left result.dist }
    {
        self.log().position_from(low)
    }

    // The next message at a position in the log.
    pub fn message_at(&self, position: LogPosition) -> FoundMessage
        requires position_in { PositionIn (length self.now.bytes.now - PlaceByte.ring) self.now.max self.now.words.now self.now.bytes.now position.left position.dist }
        requires le_left { 1 ≤ position.left }
        ensures { (C : ℕ) → length self.now.bytes.now ≡ PlaceByte.ring + C → NextMessageIn C self.now.max self.now.words.now self.now.bytes.now position.left position.dist result.number result.span.start result.span.first result.span.rest result.next.left result.next.dist }
    {
        let mut found = self.log().message_at(position);
        found.span.start += byte::RING;
        found
    }
}

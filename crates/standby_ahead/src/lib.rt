// Whether one store is ahead of another: at least its next outgoing number in each session.
#![tactic(auto)]

ghost use Rattle.std.specs.Prelude.{◌≡◌, ◌<◌, leb};
ghost use Rattle.store_place.specs.Keys.{lent_key};
ghost use Rattle.store_areas.specs.Areas.{place_at, places_of, used_of};
ghost use Rattle.model_choice.specs.Choice.{next_of, is_ahead};
ghost use Rattle.standby_ahead.specs.Ahead.{has_number, print_of, Prints, Differs};

mod index;

use index::{Index, KEPT};
use store_areas::{View, word as areas_word};
use store_log::fnv;
use store_place::Key;

// The key of a place in use.
fn key_at<'a>(view: &View<'a>, place: usize) -> Key<'a>
    requires { place < used_of view.now.words.now }
    ensures { lent_key result ≡ (place_at view.now.shape view.now.words.now view.now.bytes.now place).key }
{
    view.place(place).key()
}

// ---- fingerprints: places whose key has another one are passed over

// The fingerprint of a key: FNV-1a over its texts.
fn print_of(key: &Key) -> u64
    ensures { result ≡ print_of (lent_key key.now) }
{
    let a = fnv::bytes(fnv::START, key.begin);
    let b = fnv::bytes(a, key.sender);
    let c = fnv::bytes(b, key.target);
    fnv::bytes(c, key.suffix)
}

// Those of the first places in use; by an index, as in base_hex.
fn prints_of(view: &View) -> [u64; KEPT]
    ensures { Prints view.now.shape view.now.words.now view.now.bytes.now result }
{
    let n = (view.words[areas_word::USED] as usize).min(KEPT);
    let mut out = [0; KEPT];
    for i in 0..n {
        out[i] = print_of(&key_at(view, i));
    }
    out
}

impl Index<'_> {
    // Whether a place can have the key of this fingerprint.
    fn may_be(&self, place: usize, print: u64) -> bool
        ensures { Differs self.now.prints place print result }
    {
        KEPT <= place || self.prints[place] == print
    }
}

// ---- one session

// Whether a place has this key and at least the number n.
fn has_number(view: &View, place: usize, key: &Key, n: u64) -> bool
    requires { place < used_of view.now.words.now }
    ensures { result ≡ has_number (lent_key key.now) n (place_at view.now.shape view.now.words.now view.now.bytes.now place) }
{
    if store_sessions::next_outgoing(view, place) < n {
        return false;
    }
    let stored = view.place(place);
    store_place::has_key(stored.words, stored.bytes, key)
}

// The same, of a key with this fingerprint.
fn found_at(mine: &Index, print: u64, place: usize, key: &Key, n: u64) -> bool
    requires place_bound { place < used_of mine.now.view.words.now }
    requires print_value { print ≡ print_of (lent_key key.now) }
    ensures { result ≡ has_number (lent_key key.now) n (place_at mine.now.view.shape mine.now.view.words.now mine.now.view.bytes.now place) }
{
    mine.may_be(place, print) && has_number(&mine.view, place, key, n)
}

// Whether the number of a key's session is at least n; one that the store lacks counts as 1.
fn search(mine: &Index, print: u64, key: &Key, n: u64) -> bool
    requires { print ≡ print_of (lent_key key.now) }
    ensures { result ≡ leb n (next_of (lent_key key.now) (places_of mine.now.view.shape mine.now.view.words.now mine.now.view.bytes.now)) }
{
    let used = mine.view.words[areas_word::USED] as usize;
    (0..used).any(|place| found_at(mine, print, place, key, n)) || n <= 1
}

// The same; every number is at least 1, and place `first` is tried before all others.
fn reaches(mine: &Index, first: usize, key: &Key, n: u64) -> bool
    ensures { result ≡ leb n (next_of (lent_key key.now) (places_of mine.now.view.shape mine.now.view.words.now mine.now.view.bytes.now)) }
{
    if n <= 1 {
        return true;
    }
    let used = mine.view.words[areas_word::USED] as usize;
    if first < used && has_number(&mine.view, first, key, n) {
        return true;
    }
    search(mine, print_of(key), key, n)
}

// Whether the number of the session at a place of theirs is at most mine.
fn is_ahead_at(mine: &Index, theirs: &View, place: usize) -> bool
    requires { place < used_of theirs.now.words.now }
    ensures { result ≡ leb (place_at theirs.now.shape theirs.now.words.now theirs.now.bytes.now place).stored.session.next_out (next_of (place_at theirs.now.shape theirs.now.words.now theirs.now.bytes.now place).key (places_of mine.now.view.shape mine.now.view.words.now mine.now.view.bytes.now)) }
{
    let key = key_at(theirs, place);
    let n = store_sessions::next_outgoing(theirs, place);
    reaches(mine, place, &key, n)
}

// Whether a store is ahead of another: at least its number in each of its sessions.
pub fn is_ahead(mine: &View, theirs: &View) -> bool
    ensures { result ≡ is_ahead (places_of mine.now.shape mine.now.words.now mine.now.bytes.now) (places_of theirs.now.shape theirs.now.words.now theirs.now.bytes.now) }
{
    let index = Index {
        view: *mine,
        prints: prints_of(mine),
    };
    let used = theirs.words[areas_word::USED] as usize;
    (0..used).all(|place| is_ahead_at(&index, theirs, place))
}

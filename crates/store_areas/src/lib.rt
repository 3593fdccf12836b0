// The store's two areas: their shape, the rules that they keep, and where each place's words and bytes stand.
#![tactic(auto)]

ghost use Rattle.std.specs.Prelude.{◌≡◌, ℕ, ◌+◌, ◌*◌, ◌≤◌, ◌<◌, Bool, true, false, List, length, set};
ghost use Rattle.store_areas.specs.Areas.{place_words, place_bytes, words_at, bytes_at, slice, durable_at, roomy, allowed, SpotIs, SpotIn, place_at, in_use, Making, used_of};
ghost use Rattle.store_place.specs.Place.{place_in};
ghost use Rattle.store_areas.specs.Over.{ViewOver, ViewInUse};
ghost use Rattle.store_areas.specs.StoreWord;
ghost use Rattle.store_place.specs.PlaceByte;

pub mod store;

use base_refusals::Refusal;
pub use store::{Store, View};
use store_place::place::Place;

// How many session places, and for each the message bytes (C) and the messages (M).
#[repr(C)]
#[derive(Clone, Copy)]
pub struct Shape {
    pub places: u32,
    pub bytes: u32,
    pub messages: u32,
}

impl Shape {
    pub const MAX_BYTES: u32 = 33_554_432;

    pub const MAX_MESSAGES: u32 = 65_536;
}

// The words that stand before the first place's.
pub const COUNT_WORDS: usize = 66;

// The words before those of the places.
pub mod word {
    // How many places are in use.
    pub const USED: usize = 0;
    // How many commits are pending, and from where on they stand.
    pub const PENDING: usize = 1;

    pub const COMMITS: usize = 2;
}

// The most commits that can be pending: each has a word.
pub const MAX_PENDING: u64 = (COUNT_WORDS - word::COMMITS) as u64;

// The words of a place. A shape handed in may be any: that it keeps its limits is known once it stands in a View or a Store.
pub fn place_words(shape: Shape) -> usize
    requires { shape.messages ≤ 65536 }
    ensures { result ≡ place_words shape }
{
    store_place::word::ENTRIES + store_log::ENTRY_WORDS * (shape.messages as usize)
}

// The bytes of a place.
pub fn place_bytes(shape: Shape) -> usize
    ensures { result ≡ place_bytes shape }
{
    store_place::byte::RING + (shape.bytes as usize)
}

// Where the words and the bytes of a place begin and end.
#[derive(Clone, Copy)]
pub struct Spot {
    pub words_start: usize,
    pub words_end: usize,
    pub bytes_start: usize,
    pub bytes_end: usize,
}

// Where place i stands.
fn spot_of(shape: Shape, place: usize) -> Spot
    requires messages_bound { shape.messages ≤ 65536 }
    requires bytes_bound { shape.bytes ≤ 33554432 }
    requires place_bound { place < 4294967296 }
    ensures { SpotIs shape place result.words_start result.words_end result.bytes_start result.bytes_end }
{
    let width = place_words(shape);
    let size = place_bytes(shape);
    let words_start = COUNT_WORDS + place * width;
    let bytes_start = place * size;
    Spot {
        words_start,
        words_end: words_start + width,
        bytes_start,
        bytes_end: bytes_start + size,
    }
}

impl<'a> View<'a> {
    // The areas to be read, if they keep the rules.
    pub fn over(shape: Shape, words: &'a [u64], bytes: &'a [u8]) -> Result<View<'a>, Refusal>
        ensures { ViewOver shape words.now bytes.now result }
    {
        if allowed(shape, words, bytes) {
            Ok(View {
                words,
                bytes,
                shape,
            })
        } else {
            Err(Refusal::RulesBroken)
        }
    }

    // The same, if place i is in use too.
    pub fn with_place(
        shape: Shape,
        words: &'a [u64],
        bytes: &'a [u8],
        place: usize,
    ) -> Result<View<'a>, Refusal>
        ensures { ViewInUse shape words.now bytes.now place result }
    {
        if in_use(words, bytes, shape, place) {
            Ok(View {
                words,
                bytes,
                shape,
            })
        } else {
            Err(Refusal::RulesBroken)
        }
    }

    // A place in use, to be read.
    pub fn place(&self, place: usize) -> Place<'a>
        requires { place < used_of self.now.words.now }
        ensures is { place_in self.now.shape.bytes self.now.shape.messages result.words.now result.bytes.now ≡ place_at self.now.shape self.now.words.now self.now.bytes.now place }
        ensures max { result.max ≡ self.now.shape.messages }
        ensures long { length result.bytes.now ≡ PlaceByte.ring + self.now.shape.bytes }
        ensures words { result.words.now ≡ slice (words_at self.now.shape place) (place_words self.now.shape) self.now.words.now }
        ensures bytes { result.bytes.now ≡ slice (bytes_at self.now.shape place) (place_bytes self.now.shape) self.now.bytes.now }
    {
        let spot = self.spot(place);
        Place {
            words: &self.words[spot.words_start..spot.words_end],
            bytes: &self.bytes[spot.bytes_start..spot.bytes_end],
            max: self.shape.messages as usize,
        }
    }

    // Where a place in use stands.
    pub fn spot(&self, place: usize) -> Spot
        requires { place < used_of self.now.words.now }
        ensures { SpotIn self.now.shape place self.now.words.now self.now.bytes.now result.words_start result.words_end result.bytes_start result.bytes_end }
    {
        spot_of(self.shape, place)
    }
}

impl Store<'_> {
    // The store to be read.
    pub fn view(&self) -> View<'_>
        ensures words { result.words.now ≡ self.now.words.now }
        ensures bytes { result.bytes.now ≡ self.now.bytes.now }
        ensures shape { result.shape ≡ self.now.shape }
    {
        View {
            words: self.words,
            bytes: self.bytes,
            shape: self.shape,
        }
    }

    // Where a place in use stands. A spot of its own: by `view().spot(..)` each caller would have to carry what is said of the view back to the store.
    pub fn spot(&self, place: usize) -> Spot
        requires { place < used_of self.now.words.now }
        ensures { SpotIn self.now.shape place self.now.words.now self.now.bytes.now result.words_start result.words_end result.bytes_start result.bytes_end }
    {
        spot_of(self.shape, place)
    }
}

// From here on the areas aren't known to keep the rules yet, so they come as two slices and a shape.

// Whether C and M are within their limits and the areas are as long as they ask.
pub fn long_enough(shape: Shape, words: &[u64], bytes: &[u8]) -> bool
    ensures { result ≡ roomy shape words.now bytes.now }
{
    if Shape::MAX_BYTES < shape.bytes || Shape::MAX_MESSAGES < shape.messages {
        return false;
    }
    let places = shape.places as usize;
    (COUNT_WORDS + places * place_words(shape) <= words.len())
        & (places * place_bytes(shape) <= bytes.len())
}

// Whether the areas keep the rules.
pub fn allowed(shape: Shape, words: &[u64], bytes: &[u8]) -> bool
    ensures { result ≡ allowed shape words.now bytes.now }
{
    long_enough(shape, words, bytes)
        && (words[word::USED] <= shape.places as u64) & (words[word::PENDING] <= MAX_PENDING)
}

// Whether the areas keep the rules and place i is in use.
pub fn in_use(words: &[u64], bytes: &[u8], shape: Shape, place: usize) -> bool
    ensures { result ≡ in_use shape words.now bytes.now place }
{
    allowed(shape, words, bytes) && (place as u64) < words[word::USED]
}

// Marks the session at a place in use as durable.
// The words alone: standby_pending_run has the bytes only to be read.
pub fn mark_durable(words: &mut [u64], shape: Shape, place: usize)
    requires messages_bound { shape.messages ≤ 65536 }
    requires shape_in_bounds { StoreWord.places + shape.places * place_words shape ≤ length words.old }
    requires words_bound { used_of words.old ≤ shape.places }
    requires place_bound { place < used_of words.old }
    ensures { words.new ≡ set words.old (durable_at shape place) 1 }
{
    let at = COUNT_WORDS + place * place_words(shape) + store_place::word::DURABLE;
    words[at] = 1;
}

// Makes a store without sessions and pending commits.
pub fn make(shape: Shape, words: &mut [u64], bytes: &[u8]) -> Result<(), Refusal>
    ensures { Making shape words.old words.new bytes.now result }
{
    if !long_enough(shape, words, bytes) {
        return Err(Refusal::RulesBroken);
    }
    words[word::USED] = 0;
    words[word::PENDING] = 0;
    Ok(())
}

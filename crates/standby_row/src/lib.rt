// The bound handles: a lent row of records, searched by handle (standby.rs, where they are a map from handle to bound session).
#![tactic(auto)]

ghost use Rattle.std.specs.Prelude.{◌≡◌, ◌<◌, ◌+◌, ◌&&◌, cond, not, eqb, length, get_or, drop, set};
ghost use Rattle.std.specs.List.{list_any};
ghost use Rattle.standby_row.specs.Row.{free_record, is_used, breaks_of, is_rival, rival_of, clashes, apart_of, cleared_from, released_at, found_in, place_in, SeenOf};
ghost use Rattle.standby_row.specs.Spots.{spread_of, SpotsIn};

use frame_fields::CommitNumber;

pub mod lookup;

pub use lookup::{Found, Lookup};

// A handle that is bound to a session's place, with what it holds back; a record that is not used is free.
#[repr(C)]
#[derive(Clone, Copy)]
pub struct Bound {
    // Whether the record is used: it is if this is not 0. C lends the row, and what is lent has no bool.
    pub used: u8,
    pub handle: u32,
    pub place: usize,
    pub commit_no: CommitNumber,
    pub held_len: usize,
    pub held_bytes: u64,
}

// A free record, of zeros.
pub fn free_record() -> Bound
    ensures { result ≡ free_record }
{
    Bound {
        used: 0,
        handle: 0,
        place: 0,
        commit_no: CommitNumber(0),
        held_len: 0,
        held_bytes: 0,
    }
}

impl Bound {
    // Whether the record is used.
    pub fn is_used(self) -> bool
        ensures { result ≡ is_used self }
    {
        self.used != 0
    }

    // Whether the record is used and breaks the rules: its place is not below `places`, or it holds more than `room` bytes.
    pub fn breaks_rules(self, places: usize, room: usize) -> bool
        ensures { result ≡ breaks_of self places room }
    {
        self.is_used() && (places <= self.place || room < self.held_len)
    }

    // Whether the record is used for another handle, and names a place.
    pub fn is_rival(self, handle: u32, place: usize) -> bool
        ensures { result ≡ is_rival self handle place }
    {
        self.is_used() && self.handle != handle && self.place == place
    }

    // Whether both records are used, and for one handle or for one place.
    pub fn clashes(self, other: Bound) -> bool
        ensures { result ≡ clashes self other }
    {
        self.is_used()
            && other.is_used()
            && (self.handle == other.handle || self.place == other.place)
    }
}

// Whether the record at a place clashes with one behind it. Cold, and by the place, so that the walk keeps what it finds in registers.
#[cold]
fn clashes_behind(row: &[Bound], at: usize) -> bool
    requires { at < length row.now }
    ensures { result ≡ list_any (clashes (get_or row.now at free_record)) (drop (at + 1) row.now) }
{
    let bound = row[at];
    row.iter().skip(at + 1).any(|later| bound.clashes(*later))
}

// Whether a record is apart from those behind it, and they from each other: where none of its cells was met, none behind it has its place or its handle.
fn stays_apart(apart: bool, met: u8, row: &[Bound], at: usize) -> bool
    requires { at < length row.now }
    ensures { result ≡ (not (not (eqb met 0) && list_any (clashes (get_or row.now at free_record)) (drop (at + 1) row.now)) && apart) }
{
    if met != 0 && clashes_behind(row, at) {
        return false;
    }
    apart
}

// A number for a handle: of handles that are counted on, whatever the step, few have the same low bits.
fn spread(handle: u32) -> usize
    ensures { result ≡ spread_of handle }
{
    (handle.wrapping_mul(0x27D4_EB2D) >> 20) as usize
}

// One place or the other, by a test.
fn choose(test: bool, place: usize, other: usize) -> usize
    ensures { result ≡ cond test place other }
{
    if test { place } else { other }
}

// Where the handle's record, the first free one and the first that breaks the rules stand, the row's length where there is none; and whether no two
// used records have one handle, and no two name one place.
#[derive(Clone, Copy)]
struct Spots {
    own: usize,
    free: usize,
    broken: usize,
    apart: bool,
}

// All that is asked of a row in one walk, from the last record to the first. It marks a cell for each place and one for each handle's number: only a
// record of which one was marked before is held against those behind it.
fn spots_in<const CELLS: usize>(row: &[Bound], handle: u32, places: usize, room: usize) -> Spots
    requires { 0 < CELLS }
    ensures { SpotsIn row.now handle places room result }
{
    let mut places_met = [0u8; CELLS];
    let mut handles_met = [0u8; CELLS];
    let mut own = row.len();
    let mut free = row.len();
    let mut broken = row.len();
    let mut apart = true;
    let mut at = row.len();
    while at > 0 {
        at -= 1;
        let bound = row[at];
        if bound.is_used() {
            let place = bound.place % CELLS;
            let number = spread(bound.handle) % CELLS;
            let met = places_met[place] | handles_met[number];
            apart = stays_apart(apart, met, row, at);
            places_met[place] = 1;
            handles_met[number] = 1;
            broken = choose(bound.breaks_rules(places, room), at, broken);
            own = choose(bound.handle == handle, at, own);
        } else {
            free = at;
        }
    }
    Spots {
        own,
        free,
        broken,
        apart,
    }
}

// The same, with as many cells as serve a row of this length: a short one doesn't wait until 8,192 bytes are 0.
fn spots_of(row: &[Bound], handle: u32, places: usize, room: usize) -> Spots
    ensures { SpotsIn row.now handle places room result }
{
    if row.len() <= 64 {
        spots_in::<1024>(row, handle, places, room)
    } else {
        spots_in::<4096>(row, handle, places, room)
    }
}

// A record with its place, if there is one.
fn found_at(row: &[Bound], at: usize) -> Option<Found>
    ensures { result ≡ found_in row.now at }
{
    let bound = *row.get(at)?;
    Some(Found { at, bound })
}

// A place of the row, if there is one.
fn place_in(row: &[Bound], at: usize) -> Option<usize>
    ensures { result ≡ place_in row.now at }
{
    (at < row.len()).then_some(at)
}

// All that a call must know of the row before it runs.
pub fn find(row: &[Bound], handle: u32, places: usize, room: usize) -> Lookup
    ensures { SeenOf row.now handle places room result }
{
    let spots = spots_of(row, handle, places, room);
    Lookup {
        own: found_at(row, spots.own),
        free: place_in(row, spots.free),
        broken: place_in(row, spots.broken),
        apart: spots.apart,
        len: row.len(),
    }
}

// The first record that is used for another handle and names a place.
pub fn rival(row: &[Bound], handle: u32, place: usize) -> Option<usize>
    ensures { result ≡ rival_of row.now handle place }
{
    row.iter().position(|bound| bound.is_rival(handle, place))
}

// Puts a record at a place; at the length and past it there is none, and nothing is put.
pub fn insert(row: &mut [Bound], at: usize, bound: Bound)
    ensures { row.new ≡ set row.old at bound }
{
    if at < row.len() {
        row[at] = bound;
    }
}

// Frees the record at a place, which keeps its other fields; at the length and past it there is none.
pub fn release(row: &mut [Bound], at: usize)
    ensures { row.new ≡ released_at at row.old }
{
    if at < row.len() {
        row[at].used = 0;
    }
}

// Frees every record from a place on; from the length on that is none.
pub fn clear(row: &mut [Bound], from: usize)
    ensures { row.new ≡ cleared_from from row.old }
{
    let start = from.min(row.len());
    let rest = &mut row[start..];
    for bound in rest {
        bound.used = 0;
    }
}

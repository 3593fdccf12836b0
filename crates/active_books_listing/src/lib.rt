// A listing's sessions are met: all of them, or none where there is no room for all.
#![tactic(auto)]

ghost use Rattle.std.specs.Prelude.{◌≡◌, ◌||◌, ◌++◌, ◌+◌, ◌≤◌, length, map};
ghost use Rattle.model_active.specs.CatchUp.{member, new, sessions, met_now};
ghost use Rattle.active_books_area.specs.Words.{book_of, met_count_of};
ghost use Rattle.active_books_area.specs.Parts.{MakesBook};
ghost use Rattle.active_books_listing.specs.Listings.{KnownFirst, Gathers, MeetsListed};

use active_books_area::{Books, BooksView, find_in, word};
use active_books_session::append;
use arrayvec::ArrayVec;
use base_refusals::Refusal;

// Whether a session is listed. The entry at its own place is tried first: in the order met it is the one.
pub fn is_listed(listing: &[u64], session: u64, place: usize) -> bool
    ensures { result ≡ member session listing.now }
{
    listing.get(place) == Some(&session) || listing.contains(&session)
}

// Whether a session was met, or is among those that are new: these by `find_in`, since the library's `contains` takes a fifth more instructions for a listing of 16 new ones.
fn is_known(books: &BooksView<'_>, fresh: &[u64], session: u64, place: usize) -> bool
    ensures { result ≡ (member session (sessions (book_of books.now.words.now).met) || member session fresh.now) }
{
    is_listed(books.met(), session, place) || find_in(fresh, session).is_some()
}

// How many of a listing's first were met before.
fn count_known(books: &BooksView<'_>, listing: &[u64]) -> usize
    ensures { KnownFirst books.now.words.now listing.now result }
{
    for (place, session) in listing.iter().enumerate() {
        if !is_listed(books.met(), *session, place) {
            return place;
        }
    }
    listing.len()
}

// The sessions of a listing that are new, of whose first so many were met before.
fn gather_from(
    books: &BooksView<'_>,
    listing: &[u64],
    known: usize,
    fresh: &mut ArrayVec<u64, { Books::MAX_SESSIONS }>,
) -> Result<(), Refusal>
    requires { KnownFirst books.now.words.now listing.now known }
    ensures { Gathers books.now.words.now listing.now fresh.new result }
{
    let n = books.words[word::MET_COUNT] as usize;
    fresh.clear();
    for place in known..listing.len() {
        let session = listing[place];
        if !is_known(books, fresh, session, place) {
            if Books::MAX_SESSIONS <= n + fresh.len() {
                return Err(Refusal::TooManySessions);
            }
            fresh.push(session);
        }
    }
    Ok(())
}

// The sessions of a listing that are new, each once, in place of what `fresh` held. There is no room for a 257th. The list is lent: in a result its 2 KB would be copied twice,
// which made a call over one session four times as long.
pub fn gather(
    books: &BooksView<'_>,
    listing: &[u64],
    fresh: &mut ArrayVec<u64, { Books::MAX_SESSIONS }>,
) -> Result<(), Refusal>
    ensures { Gathers books.now.words.now listing.now fresh.new result }
{
    gather_from(books, listing, 0, fresh)
}

// Those that are new are met.
pub fn append_all(books: &mut Books<'_>, fresh: &[u64])
    requires { met_count_of books.old.words.now + length fresh.now ≤ 256 }
    ensures same_area { books.new.words.ghost_name ≡ books.old.words.ghost_name }
    ensures makes { MakesBook books.old.words.now books.new.words.now (met_now (book_of books.old.words.now) ((book_of books.old.words.now).met ++ map new fresh.now)) }
{
    for session in fresh {
        append(books, *session);
    }
}

// All of a listing are met, or none. In most passes all were met before: then no list is made, whose 2 KB take longer to fill than one session takes. Inlined, so that where the
// area lies stays in a register as they are met: else 16 new sessions take a third more.
#[inline(always)]
pub fn meet_listed(books: &mut Books<'_>, listing: &[u64]) -> Result<(), Refusal>
    ensures same_area { books.new.words.ghost_name ≡ books.old.words.ghost_name }
    ensures lists { MeetsListed books.old.words.now books.new.words.now listing.now result }
{
    let known = count_known(&books.view(), listing);
    if known == listing.len() {
        return Ok(());
    }
    let mut fresh = ArrayVec::new();
    gather_from(&books.view(), listing, known, &mut fresh)?;
    append_all(books, &fresh);
    Ok(())
}

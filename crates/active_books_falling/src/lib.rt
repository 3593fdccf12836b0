// Several sessions fall behind together, in the order they were met.
#![tactic(auto)]

ghost use Rattle.std.specs.Prelude.{◌≡◌, not, ◌&&◌, ◌++◌, ◌+◌, ◌≤◌, ◌<◌, length};
ghost use Rattle.model_active.specs.CatchUp.{member, open_only, falling, behind_now};
ghost use Rattle.arrayvec.specs.ArrayVec.{array_vec_len};
ghost use Rattle.active_books_area.specs.Words.{word_at, book_of, book_entry, met_count_of, behind_count_of};
ghost use Rattle.active_books_area.specs.BookWord;
ghost use Rattle.active_books_area.specs.Parts.{MakesBook};
ghost use Rattle.active_books_falling.specs.Together.{fallen_listed};

use active_books_area::{Books, BooksView, word};
use active_books_listing::is_listed;
use active_books_session::push;
use arrayvec::ArrayVec;
use frame_fields::Incarnation;

// Those that fall are behind.
pub fn push_all(books: &mut Books<'_>, fallen: &[u64])
    requires { behind_count_of books.old.words.now + length fallen.now ≤ 256 }
    ensures same_area { books.new.words.ghost_name ≡ books.old.words.ghost_name }
    ensures makes { MakesBook books.old.words.now books.new.words.now (behind_now (book_of books.old.words.now) ((book_of books.old.words.now).behind ++ fallen.now)) }
{
    for session in fallen {
        push(books, *session);
    }
}

// Whether the entry at k is open and not compared with an incarnation, and its session isn't behind yet.
pub fn falls_open(books: &BooksView<'_>, k: usize, incarnation: Incarnation) -> bool
    requires { k < met_count_of books.now.words.now }
    ensures { result ≡ (open_only incarnation.0 (book_entry books.now.words.now k) && not (member (word_at books.now.words.now BookWord.sessions k) (book_of books.now.words.now).behind)) }
{
    if books.words[word::OPENS + k] == 0 {
        return false;
    }
    if books.is_compared_at(k, incarnation) {
        return false;
    }
    !books.is_behind(books.words[word::SESSIONS + k])
}

// The open sessions not compared with an incarnation that aren't behind yet, in the order met.
pub fn fallen_open(
    books: &BooksView<'_>,
    incarnation: Incarnation,
) -> ArrayVec<u64, { Books::MAX_SESSIONS }>
    ensures list { result.items ≡ falling (open_only incarnation.0) (book_of books.now.words.now) }
    ensures few { array_vec_len result ≤ met_count_of books.now.words.now }
{
    let n = books.words[word::MET_COUNT] as usize;
    let mut fallen = ArrayVec::new();
    for k in 0..n {
        if falls_open(books, k, incarnation) {
            fallen.push(books.words[word::SESSIONS + k]);
        }
    }
    fallen
}

// Whether a session is listed, and isn't behind yet.
pub fn falls_listed(books: &BooksView<'_>, listing: &[u64], session: u64, place: usize) -> bool
    ensures { result ≡ (member session listing.now && not (member session (book_of books.now.words.now).behind)) }
{
    if !is_listed(listing, session, place) {
        return false;
    }
    !books.is_behind(session)
}

// Those of some sessions that are listed and aren't behind yet fall, in their order.
pub fn fall_listed(
    books: &BooksView<'_>,
    listing: &[u64],
    sessions: &[u64],
    fallen: &mut ArrayVec<u64, { Books::MAX_SESSIONS }>,
)
    requires room { array_vec_len fallen.old + length sessions.now ≤ 256 }
    ensures fall { fallen.new.items ≡ fallen.old.items ++ fallen_listed books.now.words.now listing.now sessions.now }
    ensures few { array_vec_len fallen.new ≤ array_vec_len fallen.old + length sessions.now }
{
    for (place, session) in sessions.iter().enumerate() {
        if falls_listed(books, listing, *session, place) {
            fallen.push(*session);
        }
    }
}

// Who is next to be caught up, and whether Checked is told: what the books say of a listing.
#![tactic(auto)]

ghost use Rattle.std.specs.Prelude.{◌≡◌, find};
ghost use Rattle.std.specs.List.{list_all};
ghost use Rattle.model_active.specs.CatchUp.{is_open, told_checked, is, compared_of};
ghost use Rattle.active_books_area.specs.Words.{book_of};
ghost use Rattle.active_books_next.specs.Firsts.{is_closed, is_wanting};

use active_books_area::{BooksView, word};
use active_books_session::is_compared;
use frame_fields::Incarnation;

// What a pass goes over, and the incarnation that it compares with.
#[derive(Clone, Copy)]
pub struct Pass<'a> {
    pub listing: &'a [u64],
    pub incarnation: Incarnation,
}

pub fn is_open(books: &BooksView<'_>, session: u64) -> bool
    ensures { result ≡ is_open session (book_of books.now.words.now).met }
{
    books
        .find_met(session)
        .is_some_and(|i| 0 < books.words[word::OPENS + i])
}

// Whether a session was last compared with an incarnation. By `is_some_and` this doesn't prove, nor the next by `is_none_or`: nothing is told of a closure that calls
// `is_compared`.
pub fn was_compared(books: &BooksView<'_>, session: u64, incarnation: Incarnation) -> bool
    ensures { result ≡ is (compared_of session (book_of books.now.words.now).met) incarnation.0 }
{
    match books.find_met(session) {
        Some(i) => is_compared(books, session, i, incarnation),
        None => false,
    }
}

// Whether a session is closed, and not compared with an incarnation.
pub fn is_wanting(books: &BooksView<'_>, session: u64, incarnation: Incarnation) -> bool
    ensures { result ≡ is_wanting books.now.words.now incarnation.0 session }
{
    match books.find_met(session) {
        Some(i) => books.words[word::OPENS + i] == 0
            && !is_compared(books, session, i, incarnation),
        None => true,
    }
}

fn first_closed(books: &BooksView<'_>, run: &[u64]) -> Option<u64>
    ensures { result ≡ find (is_closed books.now.words.now) run.now }
{
    run.iter()
        .copied()
        .find(|session| !is_open(books, *session))
}

// The first of those behind that is closed.
pub fn first_behind(books: &BooksView<'_>) -> Option<u64>
    ensures { result ≡ find (is_closed books.now.words.now) (book_of books.now.words.now).behind }
{
    first_closed(books, books.behind())
}

impl Pass<'_> {
    // The first of the listing that is closed and not compared with the incarnation.
    pub fn first_listed(&self, books: &BooksView<'_>) -> Option<u64>
        ensures { result ≡ find (is_wanting books.now.words.now self.now.incarnation.0) self.now.listing.now }
    {
        self.listing
            .iter()
            .copied()
            .find(|session| is_wanting(books, *session, self.incarnation))
    }

    // Whether all of the listing were compared with the incarnation.
    pub fn is_compared(&self, books: &BooksView<'_>) -> bool
        ensures { result ≡ list_all (λ s. is (compared_of s (book_of books.now.words.now).met) self.now.incarnation.0) self.now.listing.now }
    {
        self.listing
            .iter()
            .all(|session| was_compared(books, *session, self.incarnation))
    }

    // Whether a standby is told Checked, all listed being met.
    pub fn is_told(&self, books: &BooksView<'_>) -> bool
        ensures { result ≡ told_checked (book_of books.now.words.now) self.now.listing.now self.now.incarnation.0 }
    {
        if books.is_acknowledged(self.incarnation) {
            return false;
        }
        let none_behind = books.words[word::BEHIND_COUNT] == 0;
        none_behind && self.is_compared(books)
    }
}

// The books in a pass: the open ones fall behind, the next one is picked, and whether Checked is told; and all of a listing fall behind.
// Each call takes the area, the listing and the incarnation as C hands them in.
#![tactic(auto)]

ghost use Rattle.std.specs.Prelude.{◌≡◌};
ghost use Rattle.model_active.specs.CatchUp as m;
ghost use Rattle.active_books.specs.Calls.{books_answer, done_of, picked_of, BooksCalled};
ghost use Rattle.active_books_pass.specs.Picking.{Picks};

use active_books_area::{Books, BooksView, check_rules, word};
use active_books_falling::{fall_listed, fallen_open, push_all};
use active_books_listing::{append_all, gather, meet_listed};
use active_books_next::{Pass, first_behind};
use arrayvec::ArrayVec;
use base_refusals::Refusal;
use frame_fields::Incarnation;

// All of a listing fall behind (ask_lease).
pub fn all_fall_behind(words: &mut [u64], listing: &[u64]) -> Result<(), Refusal>
    ensures { BooksCalled words.old words.new (m.all_fall_behind listing.now) (books_answer done_of result) }
{
    check_rules(words)?;
    let books = BooksView { words };
    let mut fresh = ArrayVec::new();
    gather(&books, listing, &mut fresh)?;
    let mut fallen = ArrayVec::new();
    fall_listed(&books, listing, books.met(), &mut fallen);
    fall_listed(&books, listing, &fresh, &mut fallen);
    let m = books.words[word::BEHIND_COUNT] as usize;
    if Books::MAX_SESSIONS < m + fallen.len() {
        return Err(Refusal::TooManySessions);
    }
    let mut books = Books { words };
    append_all(&mut books, &fresh);
    push_all(&mut books, &fallen);
    Ok(())
}

// Each open session not compared with the standby's copy in an incarnation is counted behind.
pub fn behind_unless_compared_open(
    words: &mut [u64],
    incarnation: Incarnation,
) -> Result<(), Refusal>
    ensures { BooksCalled words.old words.new (m.behind_unless_compared_open incarnation.0) (books_answer done_of result) }
{
    check_rules(words)?;
    let fallen = fallen_open(&BooksView { words }, incarnation);
    let m = words[word::BEHIND_COUNT] as usize;
    if Books::MAX_SESSIONS < m + fallen.len() {
        return Err(Refusal::TooManySessions);
    }
    let mut books = Books { words };
    push_all(&mut books, &fallen);
    Ok(())
}

// Who is next, all listed being met: it is the one being caught up now.
fn pick(books: &mut Books<'_>, pass: &Pass<'_>) -> Option<u64>
    ensures same_area { books.new.words.ghost_name ≡ books.old.words.ghost_name }
    ensures picks { Picks books.old.words.now books.new.words.now pass.now.listing.now pass.now.incarnation.0 (picked_of result) }
{
    let view = books.view();
    if let Some(session) = first_behind(&view) {
        books.set_catching(Some(session));
        return Some(session);
    }
    let next = pass.first_listed(&view);
    books.set_catching(next);
    next
}

// The next session for the catch-up to send.
pub fn next_to_catch_up(
    words: &mut [u64],
    listing: &[u64],
    incarnation: Incarnation,
) -> Result<Option<u64>, Refusal>
    ensures { BooksCalled words.old words.new (m.next_to_catch_up listing.now incarnation.0) (books_answer picked_of result) }
{
    check_rules(words)?;
    let mut books = Books { words };
    meet_listed(&mut books, listing)?;
    let pass = Pass {
        listing,
        incarnation,
    };
    Ok(pick(&mut books, &pass))
}

// Whether after a pass the standby is told Checked: every listed session was compared with its copy in an incarnation, none is behind, and it hasn't been told so yet.
pub fn all_compared(
    words: &mut [u64],
    listing: &[u64],
    incarnation: Incarnation,
) -> Result<bool, Refusal>
    ensures { BooksCalled words.old words.new (m.all_compared listing.now incarnation.0) (books_answer m.says result) }
{
    check_rules(words)?;
    let mut books = Books { words };
    meet_listed(&mut books, listing)?;
    let pass = Pass {
        listing,
        incarnation,
    };
    Ok(pass.is_told(&books.view()))
}

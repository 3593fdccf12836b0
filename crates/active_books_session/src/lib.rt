// One session in the books: it is met, counted open or closed, compared, put behind, or taken from those behind.
#![tactic(auto)]

ghost use Rattle.std.specs.Prelude.{◌≡◌, false, [], ◌∷◌, ◌++◌, ◌<◌, None};
ghost use Rattle.model_active.specs.CatchUp.{member, joining, without, is, compared_of, on_entry, opened, shut, compared_with, met_now, behind_now};
ghost use Rattle.active_books_area.specs.Words.{book_of, met_count_of, behind_count_of};
ghost use Rattle.active_books_area.specs.Parts.{At, FindsMet, MakesBook, Appends, Meets, MeetsIfRoom};

use active_books_area::{Books, BooksView, word};
use base_refusals::Refusal;
use frame_fields::Incarnation;

// One session more is met: closed, compared with none.
pub fn append(books: &mut Books<'_>, session: u64)
    requires { met_count_of books.old.words.now < 256 }
    ensures same_area { books.new.words.ghost_name ≡ books.old.words.ghost_name }
    ensures appends { Appends books.old.words.now books.new.words.now session }
{
    let n = books.words[word::MET_COUNT] as usize;
    books.words[word::SESSIONS + n] = session;
    books.words[word::OPENS + n] = 0;
    books.words[word::COMPARED + n] = 0;
    books.words[word::MET_COUNT] = (n + 1) as u64;
}

// A session that was searched for, and found or not, is met: where it stands then.
pub fn meet(books: &mut Books<'_>, session: u64, found: Option<usize>) -> usize
    requires searched { FindsMet books.old.words.now session found }
    requires room { found ≡ None → met_count_of books.old.words.now < 256 }
    ensures same_area { books.new.words.ghost_name ≡ books.old.words.ghost_name }
    ensures meets { Meets books.old.words.now books.new.words.now session result }
{
    if let Some(i) = found {
        return i;
    }
    let n = books.words[word::MET_COUNT] as usize;
    append(books, session);
    n
}

// A session is met where there is room for it: there is none for a 257th.
pub fn meet_if_room(books: &mut Books<'_>, session: u64) -> Result<usize, Refusal>
    ensures same_area { books.new.words.ghost_name ≡ books.old.words.ghost_name }
    ensures meets { MeetsIfRoom books.old.words.now books.new.words.now session result }
{
    let found = books.view().find_met(session);
    let n = books.words[word::MET_COUNT] as usize;
    if found.is_none() && n == Books::MAX_SESSIONS {
        return Err(Refusal::TooManySessions);
    }
    Ok(meet(books, session, found))
}

// What changes an entry asks that it stands at i in the area as it is now: a struct of the session and i would have to hold the area too, and give it back for the
// next call.

// One log more is open on the session at i. `count_closed` differs in the step alone: a closure for it and its clause would be longer than the two lines.
pub fn count_open(books: &mut Books<'_>, session: u64, i: usize)
    requires { At books.old.words.now session i }
    ensures same_area { books.new.words.ghost_name ≡ books.old.words.ghost_name }
    ensures makes { MakesBook books.old.words.now books.new.words.now (met_now (book_of books.old.words.now) (on_entry session opened (book_of books.old.words.now).met)) }
{
    let opens = books.words[word::OPENS + i].saturating_add(1);
    books.words[word::OPENS + i] = opens;
}

// One log less is open on the session at i.
pub fn count_closed(books: &mut Books<'_>, session: u64, i: usize)
    requires { At books.old.words.now session i }
    ensures same_area { books.new.words.ghost_name ≡ books.old.words.ghost_name }
    ensures makes { MakesBook books.old.words.now books.new.words.now (met_now (book_of books.old.words.now) (on_entry session shut (book_of books.old.words.now).met)) }
{
    let opens = books.words[word::OPENS + i].saturating_sub(1);
    books.words[word::OPENS + i] = opens;
}

// The session at i was compared with an incarnation.
pub fn compare(books: &mut Books<'_>, session: u64, i: usize, incarnation: Incarnation)
    requires { At books.old.words.now session i }
    ensures same_area { books.new.words.ghost_name ≡ books.old.words.ghost_name }
    ensures makes { MakesBook books.old.words.now books.new.words.now (met_now (book_of books.old.words.now) (on_entry session (compared_with incarnation.0) (book_of books.old.words.now).met)) }
{
    books.words[word::COMPARED + i] = 1;
    books.words[word::INCARNATIONS + i] = incarnation.0;
}

// Whether the session at i was last compared with an incarnation.
#[tactic(auto, using(active_books_area::proofs::Area::compared_at))]
pub fn is_compared(books: &BooksView<'_>, session: u64, i: usize, incarnation: Incarnation) -> bool
    requires { At books.now.words.now session i }
    ensures { result ≡ is (compared_of session (book_of books.now.words.now).met) incarnation.0 }
{
    books.is_compared_at(i, incarnation)
}

// One session more is behind.
pub fn push(books: &mut Books<'_>, session: u64)
    requires { behind_count_of books.old.words.now < 256 }
    ensures same_area { books.new.words.ghost_name ≡ books.old.words.ghost_name }
    ensures makes { MakesBook books.old.words.now books.new.words.now (behind_now (book_of books.old.words.now) ((book_of books.old.words.now).behind ++ (session ∷ []))) }
{
    let m = books.words[word::BEHIND_COUNT] as usize;
    books.words[word::BEHIND + m] = session;
    books.words[word::BEHIND_COUNT] = (m + 1) as u64;
}

// A session joins those behind, unless it is one of them.
pub fn join(books: &mut Books<'_>, session: u64, is_behind: bool)
    requires member { is_behind ≡ member session (book_of books.old.words.now).behind }
    requires room { is_behind ≡ false → behind_count_of books.old.words.now < 256 }
    ensures same_area { books.new.words.ghost_name ≡ books.old.words.ghost_name }
    ensures makes { MakesBook books.old.words.now books.new.words.now (behind_now (book_of books.old.words.now) (joining session (book_of books.old.words.now).behind)) }
{
    if !is_behind {
        push(books, session);
    }
}

// A session goes from those behind, and those after it move up. They move in place, which an iterator over the run that is written can't do.
pub fn leave(books: &mut Books<'_>, session: u64)
    ensures same_area { books.new.words.ghost_name ≡ books.old.words.ghost_name }
    ensures makes { MakesBook books.old.words.now books.new.words.now (behind_now (book_of books.old.words.now) (without session (book_of books.old.words.now).behind)) }
{
    let m = books.words[word::BEHIND_COUNT] as usize;
    let mut k: usize = 0;
    for j in 0..m {
        let behind = books.words[word::BEHIND + j];
        if behind != session {
            books.words[word::BEHIND + k] = behind;
            k += 1;
        }
    }
    books.words[word::BEHIND_COUNT] = k as u64;
}

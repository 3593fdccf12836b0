// The words of an active's books (active.rs, State) in the area that the caller lends: whether they keep the rules, and where a session stands among them; specs/Words.antt says what each word is.
#![tactic(auto)]

ghost use Rattle.std.specs.Prelude.{◌≡◌, ◌==◌, ◌<◌, position};
ghost use Rattle.std.proofs.Math.Option.{none};
ghost use Rattle.model_active.specs.CatchUp.{is, member, sessions, catching_now};
ghost use Rattle.active_books_area.specs.Words.{flagged, option_of, word_at, book_of, met_count_of};
ghost use Rattle.active_books_area.specs.BookWord;
ghost use Rattle.active_books_area.specs.Parts.{BooksRules, ChecksBooks, FindsMet, MakesBook};

use base_refusals::Refusal;
use frame_fields::Incarnation;

// Where each word stands: the two counts, the one being caught up, the last incarnation acknowledged, then five runs of 256 words.
pub mod word {
    pub const MET_COUNT: usize = 0;

    pub const BEHIND_COUNT: usize = 1;

    pub const IS_CATCHING: usize = 2;

    pub const CATCHING: usize = 3;

    pub const IS_ACKNOWLEDGED: usize = 4;

    pub const ACKNOWLEDGED: usize = 5;

    pub const SESSIONS: usize = 6;

    pub const OPENS: usize = 262;

    pub const COMPARED: usize = 518;

    pub const INCARNATIONS: usize = 774;

    pub const BEHIND: usize = 1030;
}

// The lent area to be read, which keeps the rules.
#[derive(Clone, Copy)]
pub struct BooksView<'a> {
    pub words: &'a [u64],
    pub ghost rules: { BooksRules words.now },
}

// The lent area to be changed.
#[derive(Drop)]
pub struct Books<'a> {
    pub words: &'a mut [u64],
    pub ghost rules: { BooksRules words.now },
}

// An area that is too short, or with a count above 256, is refused. A constructor that hands `Books` on in an `Ok` isn't covered: what the area is after a refusal isn't found.
pub fn check_rules(words: &[u64]) -> Result<(), Refusal>
    ensures { ChecksBooks words.now result }
{
    if words.len() < Books::WORDS {
        return Err(Refusal::RulesBroken);
    }
    let met = words[word::MET_COUNT] as usize;
    let behind = words[word::BEHIND_COUNT] as usize;
    if (met <= Books::MAX_SESSIONS) & (behind <= Books::MAX_SESSIONS) {
        Ok(())
    } else {
        Err(Refusal::RulesBroken)
    }
}

// Where a session first stands in a run of them.
pub fn find_in(run: &[u64], session: u64) -> Option<usize>
    ensures { result ≡ position (λ x. x == session) run.now }
{
    run.iter().position(|x| *x == session)
}

impl<'a> BooksView<'a> {
    // The sessions met, in that order. `behind` is alike but for its count and where it begins: a function of both would say no less.
    pub fn met(&self) -> &'a [u64]
        ensures { result.now ≡ sessions (book_of self.now.words.now).met }
    {
        let n = self.words[word::MET_COUNT] as usize;
        &self.words[word::SESSIONS..word::SESSIONS + n]
    }

    // The sessions behind, in the order they fell behind.
    pub fn behind(&self) -> &'a [u64]
        ensures { result.now ≡ (book_of self.now.words.now).behind }
    {
        let m = self.words[word::BEHIND_COUNT] as usize;
        &self.words[word::BEHIND..word::BEHIND + m]
    }

    // Where a session stands among those met.
    pub fn find_met(&self, session: u64) -> Option<usize>
        ensures { FindsMet self.now.words.now session result }
    {
        find_in(self.met(), session)
    }

    pub fn is_behind(&self, session: u64) -> bool
        ensures { result ≡ member session (book_of self.now.words.now).behind }
    {
        self.behind().contains(&session)
    }

    pub fn is_catching(&self, session: u64) -> bool
        ensures { result ≡ is (book_of self.now.words.now).catching session }
    {
        self.words[word::IS_CATCHING] != 0 && self.words[word::CATCHING] == session
    }

    // Whether the entry at k was last compared with an incarnation.
    pub fn is_compared_at(&self, k: usize, incarnation: Incarnation) -> bool
        requires { k < met_count_of self.now.words.now }
        ensures { result ≡ is (flagged (word_at self.now.words.now BookWord.compared k) (word_at self.now.words.now BookWord.incarnations k)) incarnation.0 }
    {
        self.words[word::COMPARED + k] != 0 && self.words[word::INCARNATIONS + k] == incarnation.0
    }

    // Whether an incarnation is the last whose Checked was acknowledged.
    pub fn is_acknowledged(&self, incarnation: Incarnation) -> bool
        ensures { result ≡ is (book_of self.now.words.now).acknowledged incarnation.0 }
    {
        self.words[word::IS_ACKNOWLEDGED] != 0 && self.words[word::ACKNOWLEDGED] == incarnation.0
    }
}

impl Books<'_> {
    // The most sessions met.
    pub const MAX_SESSIONS: usize = 256;
    // The words of the lent area.
    pub const WORDS: usize = 1286;

    // The books to be read.
    pub fn view(&self) -> BooksView<'_>
        ensures { result.words.now ≡ self.now.words.now }
    {
        BooksView { words: self.words }
    }

    // A session is being caught up, or none is.
    pub fn set_catching(&mut self, session: Option<u64>)
        ensures same_area { self.new.words.ghost_name ≡ self.old.words.ghost_name }
        ensures makes { MakesBook self.old.words.now self.new.words.now (catching_now (book_of self.old.words.now) (option_of session)) }
    {
        self.words[word::IS_CATCHING] = u64::from(session.is_some());
        self.words[word::CATCHING] = session.unwrap_or(0);
    }

    // None is being caught up any more; the word beside the flag has the session whose catch-up ended.
    pub fn end_catching(&mut self, session: u64)
        ensures same_area { self.new.words.ghost_name ≡ self.old.words.ghost_name }
        ensures makes { MakesBook self.old.words.now self.new.words.now (catching_now (book_of self.old.words.now) none) }
    {
        self.words[word::IS_CATCHING] = 0;
        self.words[word::CATCHING] = session;
    }
}

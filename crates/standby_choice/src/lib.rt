// Which copy takes over, of several standbys.
#![tactic(auto)]

ghost use Rattle.std.specs.Prelude.{◌≡◌, cond, not, ◌||◌, ◌&&◌, ℕ, max, eqb, length};
ghost use Rattle.std.specs.List.{fold};
ghost use Rattle.store_areas.specs.Areas.{places_of};
ghost use Rattle.model_choice.specs.Choice.{is_candidate, is_ahead, is_ahead_of_all, chosen};
ghost use Rattle.base_flags.specs.Flag.{is_set};
ghost use Rattle.standby_choice.specs.Choice.{copy_of, is_sound, RulesIf, raised_by, copies_of, are_sound, Kept, fits_at, choice_of};

mod lent;

use base_refusals::Refusal;
use frame_fields::Epoch;
pub use lent::LentCopy;
use store_areas::{Shape, View};

// A copy: whether it is listed, its counters' epoch and checked flag, its store's shape. A flag is set if it is not 0.
#[derive(Clone, Copy)]
pub struct CopyState {
    // The two flags are bytes of any value: a `bool` would ask more of a caller.
    pub listed: u8,
    pub checked: u8,
    pub epoch: Epoch,
    pub shape: Shape,
}

// ---- candidates

impl CopyState {
    fn is_checked(&self) -> bool
        ensures { result ≡ (is_set self.now.listed && is_set self.now.checked) }
    {
        (self.listed != 0) & (self.checked != 0)
    }

    // Whether it is checked and of the epoch `top`.
    fn is_candidate(&self, top: Epoch) -> bool
        ensures { result ≡ ((is_set self.now.listed && is_set self.now.checked) && eqb self.now.epoch.0 top.0) }
    {
        self.is_checked() & (self.epoch.0 == top.0)
    }
}

// The higher of an epoch and a checked copy's.
fn raised(top: u64, c: &LentCopy) -> u64
    ensures { result ≡ raised_by top c.now }
{
    if c.copy.is_checked() {
        top.max(c.copy.epoch.0)
    } else {
        top
    }
}

// The highest epoch found on a checked copy.
fn highest(copies: &[LentCopy]) -> Epoch
    ensures { result.0 ≡ fold raised_by 0 copies.now }
{
    Epoch(copies.iter().fold(0, raised))
}

// ---- one copy against all: that their stores keep the rules is asked of the slice, since a struct that says it would need a second array

// Ahead of a copy, if that is a candidate.
fn is_ahead_if(mine: &View, c: &LentCopy, top: Epoch) -> bool
    requires { RulesIf c.now.copy c.now.words.now c.now.bytes.now }
    ensures { result ≡ (not (is_candidate top.0 (copy_of c.now.copy c.now.words.now c.now.bytes.now)) || is_ahead (places_of mine.now.shape mine.now.words.now mine.now.bytes.now) (places_of c.now.copy.shape c.now.words.now c.now.bytes.now)) }
{
    if !c.copy.is_candidate(top) {
        return true;
    }
    let theirs = View {
        words: c.words,
        bytes: c.bytes,
        shape: c.copy.shape,
    };
    standby_ahead::is_ahead(mine, &theirs)
}

// Ahead of every candidate.
fn is_ahead_of_all(mine: &View, copies: &[LentCopy], top: Epoch) -> bool
    requires { Kept copies.now }
    ensures { result ≡ is_ahead_of_all top.0 (places_of mine.now.shape mine.now.words.now mine.now.bytes.now) (copies_of copies.now) }
{
    copies.iter().all(|c| is_ahead_if(mine, c, top))
}

// Whether a copy fits: a candidate that is ahead of every candidate.
fn is_fit(c: &LentCopy, copies: &[LentCopy], top: Epoch) -> bool
    requires rules_if { RulesIf c.now.copy c.now.words.now c.now.bytes.now }
    requires kept { Kept copies.now }
    ensures { result ≡ (is_candidate top.0 (copy_of c.now.copy c.now.words.now c.now.bytes.now) && is_ahead_of_all top.0 (places_of c.now.copy.shape c.now.words.now c.now.bytes.now) (copies_of copies.now)) }
{
    if !c.copy.is_candidate(top) {
        return false;
    }
    let mine = View {
        words: c.words,
        bytes: c.bytes,
        shape: c.copy.shape,
    };
    is_ahead_of_all(&mine, copies, top)
}

// ---- the choice

// The first copy that fits.
fn first_that_fits(copies: &[LentCopy]) -> Option<usize>
    requires { Kept copies.now }
    ensures { result ≡ fits_at (length copies.now) (chosen (copies_of copies.now)) }
{
    let top = highest(copies);
    copies.iter().position(|c| is_fit(c, copies, top))
}

// Whether a copy's store keeps its rules; what isn't listed isn't looked at.
fn is_sound(c: &LentCopy) -> bool
    ensures { result ≡ is_sound c.now.copy c.now.words.now c.now.bytes.now }
{
    c.copy.listed == 0 || store_areas::allowed(c.copy.shape, c.words, c.bytes)
}

// Whether every copy's does.
fn are_sound(copies: &[LentCopy]) -> bool
    ensures { result ≡ are_sound copies.now }
{
    copies.iter().all(is_sound)
}

// The copy that takes over: 25 if a listed copy's store breaks its rules, 39 if none fits.
pub fn choose(copies: &[LentCopy]) -> Result<usize, Refusal>
    ensures { result ≡ choice_of copies.now }
{
    if !are_sound(copies) {
        return Err(Refusal::RulesBroken);
    }
    first_that_fits(copies).ok_or(Refusal::NoneFits)
}

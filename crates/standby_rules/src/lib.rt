// Whether what a call finds keeps the rules: the store's, and those of the row's records. A call answers 25 where it does not.
// The areas come apart: nothing is known of them yet.
#![tactic(auto)]

ghost use Rattle.std.specs.Prelude.{◌≡◌};
ghost use Rattle.standby_step.specs.Steps.{seen_allowed};

use standby_row::Lookup;
use standby_state::{Areas, Standing};
use store_areas::{Shape, View, word};

// The row's records are apart, and none is broken; the record found, if one was, names a place in use and holds no more than its area has.
pub fn keeps_rules(words: &[u64], bytes: &[u8], holds: &[u8], shape: Shape, lookup: Lookup) -> bool
    ensures { result ≡ seen_allowed shape lookup words.now bytes.now holds.now }
{
    if !store_areas::allowed(shape, words, bytes) {
        return false;
    }
    if !lookup.apart {
        return false;
    }
    if lookup.broken.is_some() {
        return false;
    }
    let Some(found) = lookup.own else {
        return true;
    };
    let view = View {
        words,
        bytes,
        shape,
    };
    let room = standby_batch_due::room_of(holds.len(), lookup.len);
    let bound = found.bound;
    ((bound.place as u64) < view.words[word::USED]) & (bound.held_len <= room)
}

// The same of what a call is lent.
pub fn are_kept(standing: Standing, areas: &Areas) -> bool
    ensures { result ≡ seen_allowed standing.settings.shape standing.lookup areas.now.words.now areas.now.bytes.now areas.now.holds.now }
{
    let shape = standing.settings.shape;
    keeps_rules(
        areas.words,
        areas.bytes,
        areas.holds,
        shape,
        standing.lookup,
    )
}

// The pending commits, in the first words of a store: their number at word 1, then for each the place of its session and its handle.
// Each takes the words alone, and asks for those before the places: standby_control and a lost line drop the commits without a Store.
#![tactic(auto)]

ghost use Rattle.std.specs.Prelude.{◌≡◌, [], ◌∷◌, ◌++◌, ◌+◌, ◌*◌, ◌-◌, ◌≤◌, ◌<◌, length, get_or, set};
ghost use Rattle.model_standby.specs.Standby.{pends_on};
ghost use Rattle.standby_pending.specs.Pending.{count_of, pending_of};
ghost use Rattle.store_areas.specs.StoreWord;

use store_areas::word;

// How many handles there are: a pending commit is one word, its place times this and its handle.
pub const HANDLE_COUNT: u64 = 4_294_967_296;

// Whether one of the pending commits is of a handle.
pub fn pends_on(words: &[u64], handle: u32) -> bool
    requires in_bounds { StoreWord.places ≤ length words.now }
    requires words_bound { count_of words.now ≤ 64 }
    ensures { result ≡ pends_on handle (pending_of words.now) }
{
    let n = words[word::PENDING] as usize;
    let commits = &words[word::COMMITS..word::COMMITS + n];
    commits
        .iter()
        .any(|commit| *commit % HANDLE_COUNT == u64::from(handle))
}

// One commit more.
pub fn push(words: &mut [u64], place: usize, handle: u32)
    requires in_bounds { StoreWord.places ≤ length words.old }
    requires words_bound { count_of words.old < 64 }
    requires place_bound { place < 4294967296 }
    ensures pends { pending_of words.new ≡ pending_of words.old ++ ((handle, place) ∷ []) }
    ensures writes { words.new ≡ set (set words.old (StoreWord.commits + count_of words.old) (place * 4294967296 + handle)) StoreWord.pending (count_of words.old + 1) }
{
    let n = words[word::PENDING] as usize;
    words[word::COMMITS + n] = (place as u64) * HANDLE_COUNT + (handle as u64);
    words[word::PENDING] = (n + 1) as u64;
}

// No commit is pending any more.
pub fn clear(words: &mut [u64])
    requires { StoreWord.places ≤ length words.old }
    ensures none { pending_of words.new ≡ [] }
    ensures writes { words.new ≡ set words.old 1 0 }
{
    words[word::PENDING] = 0;
}

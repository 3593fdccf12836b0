// What the standby does with pending commits: each marks its session as durable.
#![tactic(auto)]

ghost use Rattle.std.specs.Prelude.{◌≡◌, ◌||◌, not, ◌+◌, ◌*◌, ◌≤◌, leb, length};
ghost use Rattle.model_frame.specs.Parse.{is_empty};
ghost use Rattle.model_standby.specs.Standby.{pends_on};
ghost use Rattle.store_areas.specs.Areas.{place_words, Rules, used_of};
ghost use Rattle.standby_pending.specs.Pending.{count_of, pending_of};
ghost use Rattle.standby_pending_run.specs.Commits.{marked_at, Ran, RanIf};
ghost use Rattle.store_areas.specs.StoreWord;

use standby_counters::Replica;
use store_areas::{Shape, word};

// Marks the session at a place, if that is in use.
// The words alone, as `run`; the clauses are `mark_durable`'s.
fn mark_used(words: &mut [u64], shape: Shape, place: u64)
    requires messages_bound { shape.messages ≤ 65536 }
    requires shape_in_bounds { StoreWord.places + shape.places * place_words shape ≤ length words.old }
    requires words_bound { used_of words.old ≤ shape.places }
    ensures { words.new ≡ marked_at shape (used_of words.old) place words.old }
{
    if place < words[word::USED] {
        store_areas::mark_durable(words, shape, place as usize);
    }
}

// Runs all pending commits: the session of each is marked, and none is pending any more.
// The slices come apart: a Store would lend the bytes to be changed.
pub fn run(words: &mut [u64], bytes: &[u8], shape: Shape)
    requires { Rules shape words.old bytes.now }
    ensures { Ran shape bytes.now words.old words.new }
{
    let n = words[word::PENDING] as usize;
    for i in 0..n {
        let place = words[word::COMMITS + i] / standby_pending::HANDLE_COUNT;
        mark_used(words, shape, place);
    }
    words[word::PENDING] = 0;
}

// Runs all pending commits if they are due. The slices come apart: a Store would lend the bytes to be changed.
pub fn run_if(words: &mut [u64], bytes: &[u8], shape: Shape, due: bool)
    requires { Rules shape words.old bytes.now }
    ensures { RanIf due shape bytes.now words.old words.new }
{
    if due {
        run(words, bytes, shape);
    }
}

// Whether a commit is pending: before a frame that is no Batch they are then due.
pub fn is_pending(words: &[u64]) -> bool
    requires { StoreWord.places ≤ length words.now }
    ensures { result ≡ not (is_empty (pending_of words.now)) }
{
    words[word::PENDING] != 0
}

// Whether pending commits are due before a Batch of a handle.
pub fn is_due_batch(words: &[u64], handle: u32) -> bool
    requires in_bounds { StoreWord.places ≤ length words.now }
    requires words_bound { count_of words.now ≤ 64 }
    ensures { result ≡ (leb 64 (length (pending_of words.now)) || pends_on handle (pending_of words.now)) }
{
    Replica::MAX_HELD_COMMITS <= words[word::PENDING] || standby_pending::pends_on(words, handle)
}

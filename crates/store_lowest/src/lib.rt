// The lowest message on hand of a session: one walk over what is stored of it, since no word says where the oldest entry that counts stands.
#![tactic(auto)]

ghost use Rattle.std.specs.Prelude.{◌≡◌};
ghost use Rattle.store_lowest.specs.Lowest.{lowest_is, lowest_in};

use base_refusals::Refusal;
use store_areas::{Shape, View};

// The lowest number still stored of the session at a place, 0 if none is: 25 where the areas break the rules or the place isn't in use.
// The areas and the shape come apart, as C lends them.
pub fn lowest(words: &[u64], bytes: &[u8], shape: Shape, place: usize) -> Result<u64, Refusal>
    ensures { lowest_is result ≡ lowest_in shape words.now bytes.now place }
{
    let view = View::with_place(shape, words, bytes, place)?;
    let from = store_sessions::messages_from(&view, place, 1);
    if from.left == 0 {
        return Ok(0);
    }
    Ok(store_sessions::message_at(&view, place, from).number)
}

// A store with the fingerprints of its first places' keys.

ghost use Rattle.standby_ahead.specs.Ahead.{Prints};

use store_areas::View;

// The first places of a store have their fingerprints kept, so many.
pub const KEPT: usize = 256;

#[derive(Drop)]
pub struct Index<'a> {
    pub view: View<'a>,
    pub prints: [u64; KEPT],
    ghost right: { Prints view.shape view.words.now view.bytes.now prints },
}

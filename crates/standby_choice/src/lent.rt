// A copy with its store's areas.

ghost use Rattle.std.specs.Prelude.{◌<◌};

use crate::CopyState;

#[derive(Clone, Copy)]
pub struct LentCopy<'a> {
    pub copy: CopyState,
    pub words: &'a [u64],
    pub bytes: &'a [u8],
    ghost places_fit: { copy.shape.places < 4294967296 },
}

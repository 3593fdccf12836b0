// The two areas with their shape, once they are known to keep the rules.

ghost use Rattle.std.specs.Prelude.{◌<◌};
ghost use Rattle.store_areas.specs.Areas.{Rules};

use crate::Shape;

// The areas to be read.
#[derive(Clone, Copy)]
pub struct View<'a> {
    pub words: &'a [u64],
    pub bytes: &'a [u8],
    pub shape: Shape,
    ghost rules: { Rules shape words.now bytes.now },
    ghost places_fit: { shape.places < 4294967296 },
}

// The areas to be changed. It is made as a literal once the rules are known: of a constructor that answers a Result the prover finds nothing of the areas
// after a refusal.
#[derive(Drop)]
pub struct Store<'a> {
    pub words: &'a mut [u64],
    pub bytes: &'a mut [u8],
    pub shape: Shape,
    ghost rules: { Rules shape words.now bytes.now },
    ghost places_fit: { shape.places < 4294967296 },
}

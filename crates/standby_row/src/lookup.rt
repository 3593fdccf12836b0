// What a call must know of the row.

ghost use Rattle.std.specs.Prelude.{◌<◌};
ghost use Rattle.std.specs.Option.{ForSome};

use crate::Bound;

// The record that is used for a handle, and its place in the row.
#[derive(Clone, Copy)]
pub struct Found {
    pub at: usize,
    pub bound: Bound,
}

// What a call must know of the row before it runs.
#[derive(Clone, Copy)]
pub struct Lookup {
    // The first record that is used for the handle.
    pub own: Option<Found>,
    // The first free place.
    pub free: Option<usize>,
    // The first place whose record breaks the rules.
    pub broken: Option<usize>,
    // Whether no two used records have one handle, and no two name one place.
    pub apart: bool,
    // The row's length.
    pub len: usize,
    ghost inside: { ForSome own (λ f. f.at < len) },
    ghost free_inside: { ForSome free (λ i. i < len) },
}

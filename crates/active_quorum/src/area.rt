// The lent area, and a place in it.

ghost use Rattle.std.specs.Prelude.{◌<◌, ◌≤◌, length};
ghost use Rattle.active_quorum.specs.Ruled.{QuorumRules};

// The area to be read, once it is known to keep the rules.
#[derive(Clone, Copy)]
pub struct QuorumView<'a> {
    pub words: &'a [u64],
    ghost rules: { QuorumRules words.now },
}

// The area to be changed: its length is all that is kept while its words change.
#[derive(Drop)]
pub struct QuorumArea<'a> {
    pub words: &'a mut [u64],
    ghost long: { 2564 ≤ length words.now },
}

// Which of the 256 places of a count.
#[derive(Clone, Copy)]
pub struct HandlePlace {
    pub index: usize,
    ghost within: { index < 256 },
}

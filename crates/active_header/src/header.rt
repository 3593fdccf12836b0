// What a session has beside its messages.
ghost use Rattle.std.specs.Prelude.{◌≤◌, length};

#[derive(Clone, Copy)]
pub struct Header<'a> {
    pub next_outgoing: u64,
    pub next_incoming: u64,
    pub in_flight: Option<u64>,
    pub stamp: &'a [u8],
    pub marks: &'a [u8],
    ghost stamp_most: { length stamp.now ≤ 32 },
    ghost marks_most: { length marks.now ≤ 64 },
}

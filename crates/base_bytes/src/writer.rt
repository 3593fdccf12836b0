// An area that is written from a position on.

// Where writing stands in an area; each method asks that the rest is long enough, and moves `at` on.
#[derive(Drop)]
pub struct Writer<'a> {
    pub out: &'a mut [u8],
    pub at: usize,
}

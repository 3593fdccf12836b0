// An area that a text is written into.

// Where writing stands in an area.
#[derive(Drop)]
pub struct Text<'a> {
    pub out: &'a mut [u8],
    pub at: usize,
}

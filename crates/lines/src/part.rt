// Parts of a text.
use frames::digits::Digits;

/// A line, and its place in the text.
#[derive(Clone, Copy)]
pub struct Part<'a> {
    pub digits: &'a [u8],
    pub place: usize,
}

/// The fields of a line that is a frame, and the place of that line in the text.
#[derive(Clone, Copy)]
pub struct Fields<'a> {
    pub digits: Digits<'a>,
    pub place: usize,
}

//! The lines of a text that say something, and their fields.
ghost use Rattle.std.specs.Prelude.{◌+◌, ◌<◌, ◌^◌, length};

/// The lines of a text that say something, from one of its lines on.
#[derive(Clone, Copy)]
pub struct Lines<'a> {
    pub(crate) rest: &'a [u8],
    pub(crate) number: usize,
    pub(crate) comment: u8,
    ghost counted: { number + length rest.now < 2 ^ 64 },
}

/// The fields of a line, from one of them on.
#[derive(Clone, Copy)]
pub struct Fields<'a> {
    pub(crate) rest: &'a [u8],
}

/// A line that says something.
#[derive(Clone, Copy)]
pub struct TextLine<'a> {
    /// Its number, counted from 1.
    pub number: usize,
    /// Whether its first byte is not a blank.
    pub is_section: bool,
    /// Its fields.
    pub fields: Fields<'a>,
}

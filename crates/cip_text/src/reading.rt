//! What a number text comes to.

/// What a text says as a number, before it is reduced.
#[derive(Clone, Copy)]
pub(crate) enum Reading {
    /// `size / below`, negated where it is negative.
    Fits {
        negative: bool,
        size: u128,
        below: u128,
    },
    /// The text is no number.
    NoNumber,
    /// A size above 2^127-1.
    Large {
        negative: bool,
    },
    /// More digits than are kept.
    Fine,
}

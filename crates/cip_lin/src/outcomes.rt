//! What a least value is, or why there is none.
use cip_frac::Frac;

/// The least activity of a row in a box.
#[derive(Clone, Copy)]
pub enum Least {
    /// The exact least activity.
    Value(Frac),
    /// A column whose side is open comes before any operation that overflows.
    NoBound,
    /// An operation overflows before any column whose side is open.
    Wide,
}

//! Which side of a column.

/// A side of a column.
#[derive(Clone, Copy, PartialEq, Eq)]
pub enum Side {
    /// The low side.
    Low,
    /// The high side.
    High,
}

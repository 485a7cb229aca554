//! Where a nonbasic variable stands, and the moves from one dictionary to the next.

/// Where a nonbasic variable stands.
#[derive(Clone, Copy, PartialEq, Eq)]
pub enum Stand {
    /// At its low side.
    Low,
    /// At its high side.
    High,
    /// At 0; it has no side.
    Zero,
}

/// A move from one dictionary to the next. Variables go by number, columns first, then rows.
#[derive(Clone, Copy, PartialEq, Eq)]
pub enum Move {
    /// The basic variable named first leaves, to where it then stands; the one named second enters.
    Exchange(u32, u32, Stand),
    /// A nonbasic variable goes from the side where it stands to its other one.
    Flip(u32),
}

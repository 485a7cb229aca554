//! The places of a dictionary at which an operation is formed.

/// A line of a dictionary.
#[derive(Clone, Copy, PartialEq, Eq)]
pub enum Line {
    /// The row of a basic variable, by the number of that variable.
    Row(u32),
    /// The row of the cost.
    Cost,
}

/// A place: an entry of a line, or its value.
#[derive(Clone, Copy, PartialEq, Eq)]
pub struct EntryPlace {
    /// The line.
    pub line: Line,
    /// The variable on which the entry stands; none where it is the value of the line.
    pub variable: Option<u32>,
}

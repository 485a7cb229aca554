//! Combinations: rows and bounds with factors, by their names.
use cip_frac::Frac;

/// The name of a row.
#[derive(Clone, Copy, PartialEq, Eq)]
pub enum RowId {
    /// A row of the program, by its number from 0.
    Own(u32),
    /// A row of the pool, by its id.
    Pool(u64),
    /// The cutoff row: the cost is at most the cost held.
    Cutoff,
}

/// A row with a factor.
#[derive(Clone, Copy, PartialEq, Eq)]
pub struct RowMultiple {
    /// The name of the row.
    pub row: RowId,
    /// The factor: above 0 it uses the row's low side, below 0 its high side.
    pub factor: Frac,
}

/// A bound of a column with a factor.
#[derive(Clone, Copy, PartialEq, Eq)]
pub struct ColumnMultiple {
    /// The number of the column, from 0.
    pub col: u32,
    /// The factor.
    pub factor: Frac,
}

/// A combination of rows and bounds. Nothing is checked here: what it proves is for a check to say.
#[derive(Drop)]
pub struct Combo {
    /// Rows, each with a factor that isn't 0.
    pub rows: Vec<RowMultiple>,
    /// Low sides of columns, each with a factor above 0.
    pub lows: Vec<ColumnMultiple>,
    /// High sides of columns, each with a factor below 0.
    pub highs: Vec<ColumnMultiple>,
}

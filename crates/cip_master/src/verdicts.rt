//! What a test of a point of a block answers.
use cip_frac::Frac;

/// What a test of a point of a block answers: the first of these, the number of values, bounds and choices by column,
/// then whole columns, then rows in order. Columns and rows go by their places in the block.
#[derive(Clone, Copy, PartialEq, Eq)]
pub enum PointVerdict {
    /// It is a point of the block.
    Good,
    /// It hasn't one value for each column of the block.
    WrongCount,
    /// The value of this column is the first that is outside its sides, or that is neither 0 nor between the own sides
    /// of a semi-continuous column.
    BreaksBound { col: u32 },
    /// This whole column is the first with a fractional value.
    BreaksWhole { col: u32 },
    /// The activity of this row is `value` and outside its sides.
    BreaksRow { row: u32, value: Frac },
    /// The sum of this row overflows: it settles nothing of the point.
    Wide { row: u32 },
}

//! What a test of a point answers.
use cip_frac::Frac;

/// Where an operation overflows: in the sum of a row, or in that of the cost.
#[derive(Clone, Copy, PartialEq, Eq)]
pub enum Place {
    /// The row of this number, from 0.
    Row(u32),
    /// The cost.
    Cost,
}

/// What a test of a point answers: the first of these, bounds and choices by column, then whole columns, then
/// rows in order, then the cost.
#[derive(Clone, Copy, PartialEq, Eq)]
pub enum Verdict {
    /// The point is feasible, at this cost of the minimised form.
    Feasible(Frac),
    /// The value of this column, by its number from 0, is the first that is outside its sides, or that is neither 0 nor
    /// between the own sides of a semi-continuous column.
    BreaksBound { col: u32 },
    /// This whole column, by its number from 0, is the first with a fractional value.
    BreaksWhole { col: u32 },
    /// The activity of this row, by its number from 0, is `value` and outside its sides.
    BreaksRow { row: u32, value: Frac },
    /// The sum of this place overflows: it settles nothing of the point.
    Wide { place: Place },
}

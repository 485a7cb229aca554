//! Laws of the checks: each function does nothing, and its contract is a law.
ghost use Rattle.cip_cert.specs.Statements.{AggregatesAreSums, BoundsAreThose, RowsAreRoundedWhereTheyCan, SidesAreThose, WhatDoesNotRestIsValid};

/// The row of a combination that is accepted is the sum of parts, each of which holds at every point of the box at
/// which the rows hold.
pub fn aggregates_are_sums()
    ensures { AggregatesAreSums }
{}

/// The bounds that a check computes from a row are its bounds in the box at costs, at costs 0, and at its coefficient
/// on one column.
pub fn bounds_are_those()
    ensures { BoundsAreThose }
{}

/// A row is rounded exactly where each of its coefficients is whole and, unless it is 0, stands on a whole column.
pub fn rows_are_rounded_where_they_can()
    ensures { RowsAreRoundedWhereTheyCan }
{}

/// The single bounds that a check computes from a row are the sides that it implies for the column in the box, rounded
/// inward where the column is whole.
pub fn sides_are_those()
    ensures { SidesAreThose }
{}

/// A row that is derived without citing the cutoff row or a row of the pool that rests on it is the same without those
/// rows, and valid below each cost; one that cites such a row is valid below the cost held.
pub fn what_does_not_rest_is_valid()
    ensures { WhatDoesNotRestIsValid }
{}

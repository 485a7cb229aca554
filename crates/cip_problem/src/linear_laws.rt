//! Linear programs, and the rows that sums of rows and bounds imply: what points, optima and rays are, and what an
//! aggregated row says of costs and of columns in a box. `specs/` holds the definitions.
// Each function here does nothing. Its contract is one of the laws of the definitions, so that the check proves it.

ghost use Rattle.cip_problem.specs.LinearExamples.{Examples};
ghost use Rattle.cip_problem.specs.LinearStatements.{PartsHold, AggregatesHold, BoundsHold, InnerBounds, MultipliersCertify, RaysFall};

/// Where a row is satisfied, each part of it holds, and so does each part of a column's bounds at a point of the box.
pub fn parts_hold()
    ensures { PartsHold }
{}

/// An aggregated row holds at each point at which its parts hold; the row that is computed from parts on its columns
/// is their aggregated row, and no other inequality is.
pub fn aggregates_hold()
    ensures { AggregatesHold }
{}

/// At each point of a box at which an inequality holds, costs come to at least its bound (weak duality) and each value
/// lies between the sides that it implies; where it empties the box, it holds at none.
pub fn bounds_hold()
    ensures { BoundsHold }
{}

/// In a box inside another, an inequality's bound is at least as strong, and it empties that box where it empties the
/// outer one.
pub fn inner_bounds()
    ensures { InnerBounds }
{}

/// Multipliers of columns and rows whose sum is the costs give a combination whose bound is their sum at the sides
/// used; so they certify an optimum that costs as much, and, where the costs are 0 and the sum is above 0, that the
/// program has no point.
pub fn multipliers_certify()
    ensures { MultipliersCertify }
{}

/// From a point of a program each point along a ray is one too, and some of them cost less than any number.
pub fn rays_fall()
    ensures { RaysFall }
{}

/// Half of a row, half of an equation and the sum of two bounds that exclude one another are as worked out by hand: the
/// first bounds a column where the other is fixed, the second bounds costs by 5/2, and the third empties each box.
pub fn examples()
    ensures { Examples }
{}

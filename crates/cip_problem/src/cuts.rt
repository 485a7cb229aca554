//! Improving points, cuts, and the search cover: what it takes for a row to be valid in a box and below the cost held,
//! what follows from valid rows, when a box has no improving point, and how the nodes of a search cover the improving
//! points. `specs/` holds the definitions.
// Each function here does nothing. Its contract is one of the laws of the definitions, so that the check proves it.

ghost use Rattle.cip_problem.specs.CutExamples.{Examples};
ghost use Rattle.cip_problem.specs.CutStatements.{ImprovingPointsShrink, RowsAreValid, SumsAreValid, SplitRowsAreValid, ValidRowsImply, BoxesAreEmpty, CoversGoOn, NodesAreReplaced, CoversTell, ReductionsCarry};

/// Where what is held gets cheaper there are no new improving points, and what holds of those in a box goes on holding,
/// and holds in each box inside it.
pub fn improving_points_shrink()
    ensures { ImprovingPointsShrink }
{}

/// The program's own rows and the cutoff row are valid in each box, and a kept row in each box inside its scope; the
/// cutoff row is satisfied exactly where the cost is at most the cost held.
pub fn rows_are_valid()
    ensures { RowsAreValid }
{}

/// Parts of valid rows and of a box add up to a valid inequality, which may be rounded up where its coefficients are
/// whole and stand on whole columns; as a row it is satisfied at the same points.
pub fn sums_are_valid()
    ensures { SumsAreValid }
{}

/// At a point whose whole columns are whole a whole form is at most a whole number or at least the next one, so a split
/// row holds where both of its rows do, and is valid where both are.
pub fn split_rows_are_valid()
    ensures { SplitRowsAreValid }
{}

/// A valid inequality implies a bound, rounded up where costs are whole, that a box has no improving point,
/// and sides of columns, rounded inward for a whole column.
pub fn valid_rows_imply()
    ensures { ValidRowsImply }
{}

/// A box has no improving point where its bound is not below the cost held, where sides are crossed, and where no whole
/// number lies between those of a whole column.
pub fn boxes_are_empty()
    ensures { BoxesAreEmpty }
{}

/// The root covers, and a cover stays one where a node is replaced, where what is held gets cheaper and in each order.
pub fn covers_go_on()
    ensures { CoversGoOn }
{}

/// A node is replaced by nothing, by a changed node, or by the halves of a split.
pub fn nodes_are_replaced()
    ensures { NodesAreReplaced }
{}

/// A cover without nodes says that nothing is cheaper than what is held, and any cover bounds all feasible points.
pub fn covers_tell()
    ensures { CoversTell }
{}

/// Bounds of a reduced program, and that it has no point, hold of the program that it stands for; each program stands
/// for itself, and reductions follow one another.
pub fn reductions_carry()
    ensures { ReductionsCarry }
{}

/// Half of a row rounds to the row worked out by hand; a continuous column and a fractional coefficient don't let it
/// round, and a coefficient 0 does; sides are rounded inward, and a coefficient 0 is no term.
pub fn examples()
    ensures { Examples }
{}

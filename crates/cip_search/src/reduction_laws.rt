//! Reduction pairs: when a program may be solved in place of another, and how points, whole values and costs come back
//! (presolve and postsolve). The steps of presolve, and the compaction at its end, as pairs. `specs/` holds the
//! definitions.
// Each function here does nothing. Its contract is one of the laws of the definitions, so that the check proves it.

ghost use Rattle.cip_search.specs.ReductionExamples.{Examples};
ghost use Rattle.cip_search.specs.ReductionStatements.{StepsFollow, PairsFollow, PairsLeadBack, CompactedIsExact, RowsAreReplaced, SidesDivide, ColumnsAreFixed, ColumnsMove, EqualitiesTell, RowsStandFor};

/// Steps follow one another, and where no point is feasible after a step, none was before.
pub fn steps_follow()
    ensures { StepsFollow }
{}

/// A step is a pair of which nothing changes, an exact step an exact pair, and pairs follow one another.
pub fn pairs_follow()
    ensures { PairsFollow }
{}

/// Of a pair of well-formed programs the reduced one may be solved in place of the other, and searched for it.
pub fn pairs_lead_back()
    ensures { PairsLeadBack }
{}

/// A compacted program and the one that it was are an exact pair.
pub fn compacted_is_exact()
    ensures { CompactedIsExact }
{}

/// A row that holds at each point of the bounds is dropped, one that holds at none leaves no feasible point, one that
/// says of a column what new sides say becomes these, and two rows with equal terms become one.
pub fn rows_are_replaced()
    ensures { RowsAreReplaced }
{}

/// A value lies between sides divided by a number other than 0 exactly where its product lies between the sides.
pub fn sides_divide()
    ensures { SidesDivide }
{}

/// A column with equal sides leaves rows and the cost; crossed sides, and a fractional value of a whole column, leave
/// no feasible point.
pub fn columns_are_fixed()
    ensures { ColumnsAreFixed }
{}

/// A column that no row keeps from falling, or from rising, goes to the side at which it costs least.
pub fn columns_move()
    ensures { ColumnsMove }
{}

/// An equality of two terms holds exactly where one column has its form's value; a row less a multiple of it stands for
/// that row; and a form that keeps sides, whole numbers and the range at the ends of its source's sides keeps them
/// between.
pub fn equalities_tell()
    ensures { EqualitiesTell }
{}

/// A row is replaced by one that says as much beside the other rows.
pub fn rows_stand_for()
    ensures { RowsStandFor }
{}

/// The definitions are as worked out by hand on a program of three columns.
pub fn examples()
    ensures { Examples }
{}

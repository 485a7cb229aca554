//! Leaves: the points of a program with given whole values, when a leaf is wide, and what a search with open nodes and
//! parked leaves has reached. `specs/` holds the definitions.
// Each function here does nothing. Its contract is one of the laws of the definitions, so that the check proves it.

ghost use Rattle.cip_search.specs.LeafExamples.{Examples};
ghost use Rattle.cip_search.specs.LeafStatements.{PointsHaveLeaves, CoversTell};

/// The whole values of a point are a leaf, and in a box with one whole assignment they are that one; a feasible point
/// has a leaf, and in the box of a node with one leaf it has that one; and where no column is continuous, values have
/// at most one point, which is they.
pub fn points_have_leaves()
    ensures { PointsHaveLeaves }
{}

/// The least bound of a cover is a bound of all feasible points; where no open node and no parked leaf matters, no
/// feasible point is cheaper than what is held, or there is none; and where no open node matters, each improving point
/// has one that is no dearer in a wide leaf.
pub fn covers_tell()
    ensures { CoversTell }
{}

/// The leaf 18 of a program with the row 10^37 x is wide in that row, and 17 is not; a side less the fixed part can
/// overflow where the part itself does not. A semi-continuous column at 2 has the leaf where it is on.
pub fn examples()
    ensures { Examples }
{}

//! How a search over a program with continuous columns ends, and that its answer is right. `specs/` holds the
//! definitions.
// Each function here does nothing. Its contract is a law of the definitions, so that the check proves it.

ghost use Rattle.cip_search.specs.EndLaws.{EndsAreRight, StuckNodesAreShown};
ghost use Rattle.cip_search.specs.SearchAnswers.{EndsAtOnce};

/// Where a search stands still, with no node in work, and comes to an end by what is left of it, its answer is right:
/// the point, the least bound, what the end says, and which points are covered.
pub fn ends_are_right()
    ensures { EndsAreRight }
{}

/// The parked node of least bound is shown by the leaf that it was put aside for, and by what overflows there.
pub fn stuck_nodes_are_shown()
    ensures { StuckNodesAreShown }
{}

/// Where no point is feasible, infeasible is a right answer before a node is taken.
pub fn ends_at_once()
    ensures { EndsAtOnce }
{}

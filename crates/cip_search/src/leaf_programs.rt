//! Leaves with continuous columns: the linear program of a leaf, and when a leaf is wide. `specs/` holds the
//! definitions.
// Each function here does nothing. Its contract is one of the laws of the definitions, so that the check proves it.

ghost use Rattle.cip_search.specs.LeafProgramExamples.{Examples};
ghost use Rattle.cip_search.specs.LeafProgramStatements.{LeavesHavePrograms, WholeLeavesAgree};

/// Where a program has no choices, the points of a leaf are those of its program, beside the leaf's values, and their
/// costs are those that they have there, from the cost of the leaf's values on.
pub fn leaves_have_programs()
    ensures { LeavesHavePrograms }
{}

/// Leaves of three programs come to the least costs, to the move out of range and to the ray that were worked out by
/// hand.
pub fn examples()
    ensures { Examples }
{}

/// Where no column is continuous, a leaf is wide at a row or at the cost where its fixed part or what a side leaves of
/// it overflows, and nowhere else, and never by moves.
pub fn whole_leaves_agree()
    ensures { WholeLeavesAgree }
{}

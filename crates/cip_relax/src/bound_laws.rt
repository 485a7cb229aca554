//! What the linear program of a node says. The function does nothing: its contract is a law, so the check proves it.
ghost use Rattle.cip_relax.specs.Telling.{AllNodeProgramsTell};

/// Over the rows of a program and those of a pool that are valid in their scopes, the improving points in a box are
/// points of its linear program; so there is none where that has no point, and its optimum with the constant is a
/// bound.
pub fn node_programs_tell()
    ensures { AllNodeProgramsTell }
{}

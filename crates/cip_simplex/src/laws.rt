//! Laws of starts.
// Each function here does nothing. Its contract is one of the laws of the definitions, so that the check proves it.
ghost use Rattle.cip_simplex.specs.StartLaws.{StartsAreRight, SlackIsFirst};

/// Whatever the start, its moves lead to a state of the program, the last state is one, and what is answered is right.
pub fn starts_are_right()
    ensures { StartsAreRight }
{}

/// From the start of the first state the answer is that of the first state.
pub fn slack_is_first()
    ensures { SlackIsFirst }
{}

//! Dictionaries of the simplex method: states, exchanges and flips, and the order in which their operations go.
// Each function here does nothing. Its contract is one of the laws of the definitions, so that the check proves it.

ghost use Rattle.cip_bland.specs.DictionaryExamples.{Examples};
ghost use Rattle.cip_bland.specs.DictionaryStatements.{ExchangesKeep, FlipsKeep, FirstStatesTell, ProgramsAreTold};

/// After an exchange a state is consistent, the same numbers for the variables solve it, and at them the cost is the
/// same as before.
pub fn exchanges_keep()
    ensures { ExchangesKeep }
{}

/// So it is after a flip.
pub fn flips_keep()
    ensures { FlipsKeep }
{}

/// The solutions of the first state are the points with the sums of the rows after them, its cost is theirs, and it is
/// consistent.
pub fn first_states_tell()
    ensures { FirstStatesTell }
{}

/// The forms of a linear program's first state are the activities of its rows, at each list of values, and its cost at
/// each point.
pub fn programs_are_told()
    ensures { ProgramsAreTold }
{}

/// A program of two columns is exchanged as worked out by hand, and a first state overflows at the place of its row.
pub fn examples()
    ensures { Examples }
{}

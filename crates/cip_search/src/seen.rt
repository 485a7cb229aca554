//! The search over a reduced program, seen in the program: its log over the program's columns, and what it says of the
//! program. `specs/` holds the definitions.
// Each function here does nothing. Its contract is one of the laws of the definitions, so that the check proves it.

ghost use Rattle.cip_search.specs.SeenExamples.{Examples};
ghost use Rattle.cip_search.specs.SeenStatements.{LogsAreSeen, SearchesAreSeen};

/// A log over a reduced program, seen in the program, is a log of the program, with bounds as good as those of the
/// program's own linear programs where they were as good as the reduced program's.
pub fn logs_are_seen()
    ensures { LogsAreSeen }
{}

/// A search over a reduced program, seen in the program, is a search of the program itself, with the same answers.
pub fn searches_are_seen()
    ensures { SearchesAreSeen }
{}

/// Of a split of a reduced program's second column, the program's third, the log seen names the third; a node of which
/// the box has shrunk and the bound has risen has the box that this log gives it, and its own bound.
pub fn examples()
    ensures { Examples }
{}

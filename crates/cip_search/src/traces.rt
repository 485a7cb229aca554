//! The lines of a trace, the texts of answers with them, and those of `self`: definitions and laws. `specs/` holds
//! the definitions.
// Each function here does nothing. Its contract is one of the laws of the definitions, so that the check proves it.

ghost use Rattle.cip_search.specs.TraceStatements.{FiguresAreTold, SelfExamples, SelfIsTold, TraceExamples, TraceIsTold, UntracedIsPlain};

/// Without lines of a trace the text is that of the answer.
pub fn untraced_is_plain()
    ensures { UntracedIsPlain }
{}

/// The text of an answer with a trace tells the lines: for the same names and figures, two lists of lines with one text
/// are the same, where no name has a blank or a line feed in it, and no word a line feed.
pub fn trace_is_told()
    ensures { TraceIsTold }
{}

/// It tells the figures, whatever lines stand behind them: two figures that have one text, for the same names, are the
/// same, where both fit the names, and no row that is told to overflow has a name with a line feed in it.
pub fn figures_are_told()
    ensures { FiguresAreTold }
{}

/// Three lines of a trace, and an answer with two, have these texts.
pub fn trace_examples()
    ensures { TraceExamples }
{}

/// The text of an answer to `self` tells seed, columns, rows and entries, and the word of the status, the cost and the
/// bound: of two answers with one text these are the same.
pub fn self_is_told()
    ensures { SelfIsTold }
{}

/// Two answers to `self` have these texts.
pub fn self_examples()
    ensures { SelfExamples }
{}

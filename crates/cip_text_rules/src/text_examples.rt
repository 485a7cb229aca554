//! Examples of texts, by computation.
// Each function here does nothing. Its contract is a record of examples, so that the check computes them.

ghost use Rattle.cip_text_rules.specs.TextStatements.{LinesAreRight, RecordsAreRight};

/// Five texts are cut into these lines, and two lines into these fields.
pub fn lines_are_right()
    ensures { LinesAreRight }
{}

/// Six lines say these records or nothing, and a text of four lines says these two.
pub fn records_are_right()
    ensures { RecordsAreRight }
{}

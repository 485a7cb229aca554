//! The laws of texts.
// Each function here does nothing. Its contract is a law, so that the check proves it.

ghost use Rattle.cip_text_rules.specs.TextStatements.{LinesAreCut, FieldsAreWords};

/// A text is cut at line feeds: what comes before the first one is a line, the rest is cut in the same way, and bytes
/// without a line feed are one line, or none where there are no bytes.
pub fn lines_are_cut()
    ensures { LinesAreCut }
{}

/// The fields of a line are its words between blanks: a blank in front of a word counts for nothing, and a word goes
/// up to the next blank or to the end of the line.
pub fn fields_are_words()
    ensures { FieldsAreWords }
{}

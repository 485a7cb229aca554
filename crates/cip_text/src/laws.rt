//! The laws of texts.
// Each function here does nothing. Its contract is a law, so that the check proves it.
ghost use Rattle.cip_text.specs.Statements.{StarBeginsComments};

/// With `*` for comments, the lines that say something are the records of free MPS, with their numbers.
pub fn star_begins_comments()
    ensures { StarBeginsComments }
{}

//! Examples of texts, by computation.
// Each function here does nothing. Its contract is a record of examples, so that the check computes them.

ghost use Rattle.cip_text_rules.specs.MpsExamples.{TextsHavePrograms, EachKindIsFound, SectionsAreRead, ColumnsAreRead, BoundsAreRead, SemisAreRead, SidesAreRead};

/// Two texts have the programs that were written out for them, one of them with much that a text may have.
pub fn texts_have_programs()
    ensures { TextsHavePrograms }
{}

/// Each kind of fault is found on a text of its own, at its line; the limits of rows and of bytes where they
/// are passed.
pub fn each_kind_is_found()
    ensures { EachKindIsFound }
{}

/// Section lines, senses, comments and blanks are read as the profile says.
pub fn sections_are_read()
    ensures { SectionsAreRead }
{}

/// Markers, columns and their entries are read as the profile says.
pub fn columns_are_read()
    ensures { ColumnsAreRead }
{}

/// Each type of bound gives a column the sides that were worked out by hand, and bounds that are none are refused.
pub fn bounds_are_read()
    ensures { BoundsAreRead }
{}

/// A bound of type SC makes a column semi-continuous, with its own sides and those of an open choice; values that
/// aren't above 0, columns that would be whole too, and at ENDATA columns without their bounds are refused.
pub fn semis_are_read()
    ensures { SemisAreRead }
{}

/// Each type of row gets the sides that were worked out by hand, by its values in RHS and RANGES.
pub fn sides_are_read()
    ensures { SidesAreRead }
{}

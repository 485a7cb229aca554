//! Examples of texts of points, by computation.
// Each function here does nothing. Its contract is a record of examples, so that the check computes them.

ghost use Rattle.cip_text_rules.specs.PointExamples.{TextsHavePoints, EachPointKindIsFound, PointFaultsAreTold};

/// Texts have the points that were written out for them, by the names of the columns.
pub fn texts_have_points()
    ensures { TextsHavePoints }
{}

/// Each kind of fault of a line, and that behind the last line, is found on a text of its own, at its line.
pub fn each_point_kind_is_found()
    ensures { EachPointKindIsFound }
{}

/// Of several faults the first line counts, then the least kind; comments and letters are read as they stand.
pub fn point_faults_are_told()
    ensures { PointFaultsAreTold }
{}

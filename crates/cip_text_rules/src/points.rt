//! The laws of texts of points.
// Each function here does nothing. Its contract is one of the laws of the definitions, so that the check proves it.

ghost use Rattle.cip_text_rules.specs.PointStatements.{PointsHaveOneOutcome, PointFaultsAreFirst, PointsAreDescribed, PointFaultsAreLeast, PointsAreOfLines};

/// A text has a point or a first fault, never both, and one of each at the most.
pub fn points_have_one_outcome()
    ensures { PointsHaveOneOutcome }
{}

/// The fault of a text of at most 67,108,864 bytes is that of its first faulty line; where no line has a fault it is
/// kind 5 at the line behind the last, if a column is missing.
pub fn point_faults_are_first()
    ensures { PointFaultsAreFirst }
{}

/// A text has a point exactly where it has at most 67,108,864 bytes, no line has a fault, and no column is missing.
pub fn points_are_described()
    ensures { PointsAreDescribed }
{}

/// The fault of a line is a kind whose rule is broken there, and no lesser one is; a line without fault breaks no rule.
pub fn point_faults_are_least()
    ensures { PointFaultsAreLeast }
{}

/// The point of a text has one value for each column of the program: that of the one line that gives the column. Each
/// line gives a column of the program.
pub fn points_are_of_lines()
    ensures { PointsAreOfLines }
{}

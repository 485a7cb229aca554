//! A reader of texts of points on plain values: one value for each column, the tests and the put of a line, and bytes
//! taken one by one. The contracts of the code are over these steps; the laws tie them to the definitions of a text.
// Each function here does nothing. Its contract is a law of the steps, so that the check proves it.

ghost use Rattle.cip_text_rules.specs.PointStepStatements.{PointsAreRead, PointFaultsOfEndedLines, PointFaultsStay, PointLinesHaveTests, PointStatesAreSound};

/// A text that is read byte by byte comes to exactly the point or the first fault of the text, for a program whose
/// columns have different names.
pub fn points_are_read()
    ensures { PointsAreRead }
{}

/// Before a text ends a fault is known exactly where the text, as far as it was read, is faulty at a line that has
/// ended.
pub fn point_faults_of_ended_lines()
    ensures { PointFaultsOfEndedLines }
{}

/// A fault that is known before a text ends is the text's, whatever follows, and stays known.
pub fn point_faults_stay()
    ensures { PointFaultsStay }
{}

/// A line of other than two fields is kind 1; the least kind of any other line is that of three tests: an unknown
/// column, one whose value is there, and a bad fraction.
pub fn point_lines_have_tests()
    ensures { PointLinesHaveTests }
{}

/// There is a place for the value of each column, before the first line and behind each.
pub fn point_states_are_sound()
    ensures { PointStatesAreSound }
{}

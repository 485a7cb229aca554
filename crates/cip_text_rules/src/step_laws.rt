//! A reader of free MPS on plain values: its state, the tests and the puts of a line, and bytes taken one by one. The
//! contracts of the code are over these steps; the law below ties them to the definitions of a text.
// Each function here does nothing. Its contract is a law of the steps, so that the check proves it.

ghost use Rattle.cip_text_rules.specs.MpsStepStatements.{MpsTextsAreRead, LinesHaveTests, NumbersAreOfNames, MpsFaultsOfEndedLines, MpsFaultsStay, RowsAreTerms, ValuesAreTested, StatesAreSound};

/// A text that is read byte by byte comes to exactly the program or the first fault of the text.
pub fn texts_are_read()
    ensures { MpsTextsAreRead }
{}

/// Of all tests of a line the least kind is that of the tests that its kind of line can fail.
pub fn lines_have_tests()
    ensures { LinesHaveTests }
{}

/// The number of a name is its first place in the list, as a map of names gives it.
pub fn numbers_are_of_names()
    ensures { NumbersAreOfNames }
{}

/// Before a text ends a fault is known exactly where the text, as far as it was read, is faulty at a line that has
/// ended.
pub fn faults_of_ended_lines()
    ensures { MpsFaultsOfEndedLines }
{}

/// A fault that is known before a text ends is the text's, whatever follows, and stays known.
pub fn faults_stay()
    ensures { MpsFaultsStay }
{}

/// The rows of a text's program have their terms by rising column, and none with the coefficient 0.
pub fn rows_are_terms()
    ensures { RowsAreTerms }
{}

/// Whether a number is 0, below or above 0 or no bound, and its size, can be told by its value instead of its text.
pub fn values_are_tested()
    ensures { ValuesAreTested }
{}

/// Behind lines without fault there is a row for each name of a row and a column for each name of a column, none is too
/// many, and each row has its numbers by rising column.
pub fn states_are_sound()
    ensures { StatesAreSound }
{}

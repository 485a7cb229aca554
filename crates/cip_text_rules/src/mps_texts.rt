//! The laws of texts of free MPS.
// Each function here does nothing. Its contract is one of the laws of the definitions, so that the check proves it.

ghost use Rattle.cip_text_rules.specs.MpsStatements.{TextsHaveOneOutcome, MpsFaultsAreFirst, ProgramsAreDescribed, FaultsAreLeast, ProgramsAreWellFormed, CoefficientsAreNumbers, SemisAreNamed};

/// A text has a program or a first fault, never both, and one of each at the most.
pub fn one_outcome()
    ensures { TextsHaveOneOutcome }
{}

/// The fault of a text of at most 67,108,864 bytes is that of its first line that breaks a rule, where no ENDATA stands
/// before; where none does and there is no ENDATA, it is kind 17 at the line behind the last.
pub fn faults_are_first()
    ensures { MpsFaultsAreFirst }
{}

/// A text has a program exactly where it has at most 67,108,864 bytes, and an ENDATA such that no line as far as that
/// breaks a rule; it is the program of the lines as far as that.
pub fn programs_are_described()
    ensures { ProgramsAreDescribed }
{}

/// The fault of a line is a kind whose rule is broken there, and no lesser one is; a line without fault breaks no rule.
pub fn faults_are_least()
    ensures { FaultsAreLeast }
{}

/// The program of a text is well-formed: its lists belong together, and it has at most 65,536 rows and columns.
pub fn programs_are_well_formed()
    ensures { ProgramsAreWellFormed }
{}

/// Where lines break no rule, the coefficient of a row and a column is the number of the one record that names both,
/// and else 0.
pub fn coefficients_are_numbers()
    ensures { CoefficientsAreNumbers }
{}

/// The semi-continuous columns of the program of a text are exactly those that an SC record of the lines as far as
/// ENDATA names.
pub fn semis_are_named()
    ensures { SemisAreNamed }
{}

//! The laws of LP texts.
// Each function here does nothing. Its contract is one of the laws of the definitions, so that the check proves it.

ghost use Rattle.cip_text_rules.specs.LpStatements.{LpTextsHaveOneOutcome, LpFaultsAreFirst, LpProgramsAreDescribed, LpFaultsAreLeast, LpFactsAreSound, LpProgramsAreWellFormed, LpCoefficientsAreNumbers};

/// A text has a program or a first fault, never both, and one of each at the most.
pub fn lp_one_outcome()
    ensures { LpTextsHaveOneOutcome }
{}

/// The fault of a text of at most 67,108,864 bytes is that of its first token that breaks a rule, where no End stands
/// before; where none does and there is no End, it is kind 8 at the line behind the last.
pub fn lp_faults_are_first()
    ensures { LpFaultsAreFirst }
{}

/// A text has a program exactly where it has at most 67,108,864 bytes, and an End such that no token as far as that
/// breaks a rule; it is the program of the tokens as far as that.
pub fn lp_programs_are_described()
    ensures { LpProgramsAreDescribed }
{}

/// The fault of what a token says is a kind whose rule is broken there, and no lesser one is; without fault none is.
pub fn lp_faults_are_least()
    ensures { LpFaultsAreLeast }
{}

/// What was said without fault belongs together: columns have costs and sides, rows have names, there are at most
/// 65,536 of each and 4,194,304 entries, and forms have their numbers by rising column.
pub fn lp_facts_are_sound()
    ensures { LpFactsAreSound }
{}

/// The program of a text is well-formed: its lists belong together, and it has at most 65,536 rows and columns.
pub fn lp_programs_are_well_formed()
    ensures { LpProgramsAreWellFormed }
{}

/// In a form a term without fault gives its column its number, which had none before, and leaves the others; a row has
/// the numbers of its form as coefficients, and 0 where it has none.
pub fn lp_coefficients_are_numbers()
    ensures { LpCoefficientsAreNumbers }
{}

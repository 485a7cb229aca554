//! Examples of LP texts, by computation.
// Each function here does nothing. Its contract is a record of examples, so that the check computes them.

ghost use Rattle.cip_text_rules.specs.LpExamples.{LpTokensAreCut, LpTextsHavePrograms, EachLpKindIsFound, LpStatementsAreRead};

/// Eighteen lines have the tokens that were worked out by hand.
pub fn lp_tokens_are_cut()
    ensures { LpTokensAreCut }
{}

/// Three texts have the programs that were written out for them, one of them with much that a text may have.
pub fn lp_texts_have_programs()
    ensures { LpTextsHavePrograms }
{}

/// Each kind of fault is found on a text of its own, at its line; the limits of rows, entries and bytes where they are
/// passed.
pub fn each_lp_kind_is_found()
    ensures { EachLpKindIsFound }
{}

/// Statements end, and words stand, where the dialect says so.
pub fn lp_statements_are_read()
    ensures { LpStatementsAreRead }
{}

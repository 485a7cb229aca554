//! A law of what solving a program comes to. The function does nothing: its contract is the law, so that the check
//! proves it.
ghost use Rattle.cip_solve.specs.Statements.{AnswersFit};

/// An answer fits the program, as `report` asks: the point and a ray have a value for each column, the leaf that is
/// shown one for each whole column, and what overflows is one of the rows, or the cost, or a list of moves.
pub fn answers_fit()
    ensures { AnswersFit }
{}

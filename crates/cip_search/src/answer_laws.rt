//! The answers that go out: figures, the texts of answers, and what true figures say. The contracts of the crates above
//! speak of these definitions; `specs/` holds them.
// Each function here does nothing. Its contract is one of the laws of the definitions, so that the check proves it.

ghost use Rattle.cip_search.specs.AnswerStatements.{AnswerTellsFigures, FixedTextsStandApart, Examples};

/// The text of an answer tells its figures: two figures that have one text, for the same names, are the same, where
/// the point of each has a value for each column, the leaf one for each whole column and a choice for each
/// semi-continuous one, and after infeasible there is neither a point nor a bound.
pub fn answer_tells_figures()
    ensures { AnswerTellsFigures }
{}

/// No answer has the text of bad usage, of a read fault, of refused memory or of any refusal; no two of the first three
/// texts are the same, and no refusal has one of them.
pub fn fixed_texts_stand_apart()
    ensures { FixedTextsStandApart }
{}

/// Five answers and bad usage have these texts.
pub fn examples()
    ensures { Examples }
{}

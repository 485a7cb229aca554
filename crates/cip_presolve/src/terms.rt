//! Terms put into a row, two of them wait for their place.
ghost use Rattle.std.specs.Prelude.{IfOk, IfSome, ⊤};
ghost use Rattle.std.specs.Bool.{MatchBool};
ghost use Rattle.cip_presolve.specs.PutTerms.{HasMore, HasMet, HasBoth, HasAll};

use cip_frac::Frac;
use cip_lin::{Row, RowFault, Term};
use std::alloc::AllocError;

/// Puts a term at the end of a row, unless its coefficient is 0: whether it could stand there. `Err` comes where a
/// growth was refused.
#[tactic(auto, using(crate::proofs::TermsPut::putting))]
fn put(row: &mut Row, term: Term) -> Result<bool, AllocError>
    ensures { IfOk result (λ whole. MatchBool whole (HasMore row.old term row.new) ⊤) }
{
    if term.coef.is_zero() {
        return Ok(true);
    }
    match row.append(term) {
        Ok(()) => Ok(true),
        Err(RowFault::NoMemory) => Err(AllocError),
        Err(_) => Ok(false),
    }
}

/// Puts a term that waits at the end of a row, where its column comes before that of another term, and adds it to that
/// where both stand on one column. Then none waits: the coefficient is 0. Answers the other term, `None` where a number
/// isn't in range, or the term couldn't stand there; `Err` comes where a growth was refused.
#[tactic(auto, using(crate::proofs::TermsPut::meeting))]
fn meet(row: &mut Row, waiting: &mut Term, term: Term) -> Result<Option<Term>, AllocError>
    ensures { IfOk result (λ found. IfSome found (HasMet row.old waiting.old term row.new waiting.new)) }
{
    if term.col < waiting.col {
        return Ok(Some(term));
    }
    if term.col == waiting.col {
        let Ok(coef) = term.coef.add(waiting.coef) else {
            return Ok(None);
        };
        waiting.coef = Frac::zero();
        return Ok(Some(Term {
            col: term.col,
            coef,
        }));
    }
    if !put(row, *waiting)? {
        return Ok(None);
    }
    waiting.coef = Frac::zero();
    Ok(Some(term))
}

/// Puts a term at the end of a row, and those of two terms before it that wait and come before it: whether they could
/// stand there. `Err` comes where a growth was refused.
#[tactic(auto, using(crate::proofs::TermsPut::both_meet))]
fn put_next(
    row: &mut Row,
    first: &mut Term,
    second: &mut Term,
    term: Term,
) -> Result<bool, AllocError>
    ensures { IfOk result (λ whole. MatchBool whole
        (HasBoth row.old first.old second.old term row.new first.new second.new) ⊤) }
{
    let Some(term) = meet(row, first, term)? else {
        return Ok(false);
    };
    let Some(term) = meet(row, second, term)? else {
        return Ok(false);
    };
    put(row, term)
}

/// Puts terms into a row by rising column, and with them two others, the first of which comes before the second:
/// whether they could all stand there. `Err` comes where a growth was refused.
#[tactic(auto, using(crate::proofs::TermsPut::all_put))]
pub(crate) fn put_all(
    row: &mut Row,
    first: Term,
    second: Term,
    terms: &[Term],
) -> Result<bool, AllocError>
    ensures { IfOk result (λ whole. MatchBool whole (HasAll row.old first second terms.now row.new) ⊤) }
{
    let mut one = first;
    let mut other = second;
    for term in terms {
        if !put_next(row, &mut one, &mut other, *term)? {
            return Ok(false);
        }
    }
    if !put(row, one)? {
        return Ok(false);
    }
    put(row, other)
}

//! A row with the form of a column in its place.
ghost use Rattle.std.specs.Prelude.{IfOk, IfSome, ⊤};
ghost use Rattle.std.specs.Bool.{MatchBool};
ghost use Rattle.cip_presolve.specs.PutTerms.{HasAll};
ghost use Rattle.cip_presolve.specs.ColumnForms.{IsReplacedIn};

use crate::fixed_columns::less;
use crate::forms::ColumnForm;
use crate::terms::put_all;
use cip_frac::Frac;
use cip_lin::{Row, Term};
use std::alloc::{AllocError, Global};

/// A coefficient of terms on a column; 0 where none stands there.
fn coef_on(terms: &[Term], column: u32) -> Frac {
    for term in terms {
        if term.col == column {
            return term.coef;
        }
    }
    Frac::zero()
}

/// Puts the terms of a row into a new one with two others, whichever of them comes first: whether they could all stand
/// there. `Err` comes where a growth was refused.
#[tactic(auto, using(crate::proofs::RowsReplaced::turned))]
fn put_both(new: &mut Row, own: Term, other: Term, terms: &[Term]) -> Result<bool, AllocError>
    ensures { IfOk result (λ whole. MatchBool whole (HasAll new.old own other terms.now new.new) ⊤) }
{
    if own.col < other.col {
        put_all(new, own, other, terms)
    } else {
        put_all(new, other, own, terms)
    }
}

/// A row with the form of a column in its place; `None` where no term stands on the column, or a number isn't in range.
/// `Err` comes where a growth was refused.
#[tactic(auto, using(crate::proofs::RowsReplaced::replacing))]
pub(crate) fn replaced(
    alloc: Global,
    row: &Row,
    column: u32,
    form: &ColumnForm,
) -> Result<Option<Row>, AllocError>
    ensures { IfOk result (λ found. IfSome found (IsReplacedIn row.now column form.now)) }
{
    let coef = coef_on(row.terms(), column);
    if coef.is_zero() {
        return Ok(None);
    }
    let Ok(shift) = coef.mul(form.constant) else {
        return Ok(None);
    };
    let Ok(more) = coef.mul(form.factor) else {
        return Ok(None);
    };
    let Some(low) = less(row.low(), shift) else {
        return Ok(None);
    };
    let Some(high) = less(row.high(), shift) else {
        return Ok(None);
    };
    let own = Term {
        col: column,
        coef: coef.neg(),
    };
    let other = Term {
        col: form.source,
        coef: more,
    };
    let mut new = Row::empty(alloc, low, high);
    let Ok(whole) = put_both(&mut new, own, other, row.terms()) else {
        drop(new);
        return Err(AllocError);
    };
    if whole {
        return Ok(Some(new));
    }
    drop(new);
    Ok(None)
}

//! The values of all columns at a point that has those of the columns that stay at their places.
ghost use Rattle.std.specs.Prelude.{◌≡◌, ◌<◌, length, IfOk, Ok, MatchOption};
ghost use Rattle.cip_presolve.specs.Leaf.{at_wholes};
ghost use Rattle.cip_presolve.specs.Forms.{filled};
ghost use Rattle.cip_presolve.specs.StepsBack.{value_outcome, HasOverflow, WholesFit};
ghost use Rattle.cip_presolve.specs.FilledPoints.{IsFilled};

use crate::forms::ColumnForm;
use cip_frac::{Frac, Wide};
use std::alloc::{AllocError, Global};

/// The value of a column: its own at a point where it stays, and that of its form where it is gone, or the operation
/// that overflows.
fn value_outcome(form: &Option<ColumnForm>, point: &[Frac], column: usize) -> Result<Frac, Wide>
    requires { column < length point.now }
    ensures { result ≡ value_outcome form.now point.now column }
{
    match form {
        Some(form) => {
            let value = match point.get(form.source as usize) {
                Some(value) => *value,
                None => Frac::zero(),
            };
            form.constant.plus_product(form.factor, value)
        }
        None => Ok(point[column]),
    }
}

/// A point with the values of the columns that are gone, or that one of them overflows. `Err` comes where a growth was
/// refused.
#[tactic(auto, using(crate::proofs::FilledPoints::filling))]
pub(crate) fn filled(
    alloc: Global,
    forms: &[Option<ColumnForm>],
    point: &[Frac],
) -> Result<Option<Vec<Frac>>, AllocError>
    requires { length forms.now ≡ length point.now }
    ensures { IfOk result (λ found. MatchOption found (HasOverflow forms.now point.now)
        (λ whole. IsFilled forms.now point.now whole.items)) }
{
    let mut whole = Vec::new(alloc);
    for column in 0..forms.len() {
        let form = &forms[column];
        match value_outcome(form, point, column) {
            Ok(value) => whole.push(value)?,
            Err(_) => return Ok(None),
        }
    }
    Ok(Some(whole))
}

/// The values of the whole columns of a point with the values of the columns that are gone. `Err` comes where a growth
/// was refused.
#[tactic(auto, using(crate::proofs::FilledPoints::filling_wholes))]
pub(crate) fn wholes_filled(
    alloc: Global,
    forms: &[Option<ColumnForm>],
    whole: &[bool],
    point: &[Frac],
) -> Result<Vec<Frac>, AllocError>
    requires long { length forms.now ≡ length point.now }
    requires fit { WholesFit forms.now whole.now point.now }
    ensures { IfOk result (λ all. all.items ≡ at_wholes whole.now (filled forms.now point.now point.now)) }
{
    let mut all = Vec::new(alloc);
    for column in 0..forms.len().min(whole.len()) {
        if !whole[column] {
            continue;
        }
        let form = &forms[column];
        match value_outcome(form, point, column) {
            Ok(value) => all.push(value)?,
            Err(_) => unreachable!(),
        }
    }
    Ok(all)
}

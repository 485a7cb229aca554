//! The values of columns that stay, at the places of all columns.
ghost use Rattle.std.specs.Prelude.{◌≡◌, ◌+◌, ◌<◌, ◌≤◌, ◌^◌, List, drop, map, IfOk, is_none};
ghost use Rattle.cip_rational.specs.Rational.{ℚ};
ghost use Rattle.cip_presolve.specs.WholeParts.{with_wholes};
ghost use Rattle.cip_presolve.specs.Places.{value_taken, values_behind, is_whole_left, whole_and_left};

use crate::forms::ColumnForm;
use cip_frac::Frac;
use std::alloc::{AllocError, Global};

/// Whether each column stays: whether it has no form. `Err` where the memory for it was refused.
pub(crate) fn columns_left(
    alloc: Global,
    forms: &[Option<ColumnForm>],
) -> Result<Vec<bool>, AllocError>
    ensures { IfOk result (λ left. left.items ≡ map is_none forms.now) }
{
    let mut left = Vec::new(alloc);
    for form in forms {
        left.push(form.is_none())?;
    }
    Ok(left)
}

/// Whether a column stays and is whole.
fn is_whole_left(form: &Option<ColumnForm>, whole: &[bool], column: usize) -> bool
    ensures { result ≡ is_whole_left form.now (drop column whole.now) }
{
    match whole.get(column) {
        Some(flag) => form.is_none() && *flag,
        None => false,
    }
}

/// Whether each column stays and is whole. `Err` where the memory for it was refused.
#[tactic(auto, using(crate::proofs::Placed::flagging))]
pub(crate) fn whole_and_left(
    alloc: Global,
    forms: &[Option<ColumnForm>],
    whole: &[bool],
) -> Result<Vec<bool>, AllocError>
    ensures { IfOk result (λ left. left.items ≡ whole_and_left forms.now whole.now) }
{
    let mut left = Vec::new(alloc);
    for column in 0..forms.len() {
        let form = &forms[column];
        left.push(is_whole_left(form, whole, column))?;
    }
    Ok(left)
}

/// The value at the place of a column: the next one where it takes one, and else 0.
fn value_taken(takes: bool, values: &[Frac], at: usize) -> Frac
    ensures { result ≡ value_taken takes (drop at values.now) }
{
    if !takes {
        return Frac::zero();
    }
    match values.get(at) {
        Some(value) => *value,
        None => Frac::zero(),
    }
}

/// The place of the next value behind a column.
#[tactic(auto, using(crate::proofs::Placed::drop_later))]
fn place_behind(takes: bool, at: usize) -> usize
    requires { at < 2 ^ 63 }
    ensures place { (values : List ℚ) → drop result values ≡ values_behind takes (drop at values) }
    ensures within { result ≤ at + 1 }
{
    if takes { at + 1 } else { at }
}

/// Values at the places of the columns that take one, and 0 at the others. `Err` comes where a growth was refused.
#[tactic(auto, using(crate::proofs::Placed::placing))]
pub(crate) fn placed(
    alloc: Global,
    takes: &[bool],
    values: &[Frac],
) -> Result<Vec<Frac>, AllocError>
    ensures { IfOk result (λ point. point.items ≡ with_wholes takes.now values.now) }
{
    let mut point = Vec::new(alloc);
    let mut at = 0;
    for column in 0..takes.len() {
        let taken = takes[column];
        point.push(value_taken(taken, values, at))?;
        at = place_behind(taken, at);
    }
    Ok(point)
}

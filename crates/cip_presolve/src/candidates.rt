//! The forms of columns that may be left out, as far as their sides and costs tell.
ghost use Rattle.std.specs.Prelude.{◌≡◌, ◌<◌, true, length, slice_get, Some, IfOk, IfSome};
ghost use Rattle.std.specs.Bool.{OnTrue};
ghost use Rattle.cip_rational.specs.Rational.{IsWhole};
ghost use Rattle.cip_rational.specs.Range.{fits_range};
ghost use Rattle.cip_presolve.specs.ColumnForms.{IsSubstitute};
ghost use Rattle.cip_presolve.specs.ColumnsOut.{IsPlainAndFree, GoesAtValue, GoesWhole, GoesByForm, MayAllGo};

use crate::drafts::Draft;
use crate::fixed_columns::only_value;
use crate::forms::{ColumnForm, form_at, is_substitute};
use crate::keeping::{assigns, keeps};
use crate::lone::row_counts;
use cip_frac::Frac;
use std::alloc::{AllocError, Global};

/// Whether a column may have a value: where it is whole, so is the value. Each number is in range.
fn can_be(value: Frac, whole: bool) -> bool
    ensures whole { OnTrue result (whole ≡ true → IsWhole value) }
    ensures in_range { fits_range value ≡ true }
{
    let _numerator = value.numerator();
    let _denominator = value.denominator();
    if whole {
        return value.is_whole();
    }
    true
}

/// Whether a column isn't semi-continuous and costs nothing.
fn is_free(draft: &Draft, column: u32) -> bool
    requires { column < length draft.now.bounds }
    ensures { OnTrue result (IsPlainAndFree draft.now column) }
{
    !draft.is_semi(column) && draft.cost(column).is_zero()
}

/// The form by which a column may be left out, where no row has it: that of the value of its equal sides.
#[tactic(auto, using(crate::proofs::MayLeave::at_value))]
fn value_out(draft: &Draft, column: u32) -> Option<ColumnForm>
    requires { column < length draft.now.bounds }
    ensures { IfSome result (GoesAtValue draft.now column) }
{
    let Some(value) = only_value(draft.bounds().sides(column)) else {
        return None;
    };
    if !is_free(draft, column) || !can_be(value, draft.is_whole(column)) {
        return None;
    }
    Some(ColumnForm {
        constant: value,
        factor: Frac::zero(),
        source: 0,
    })
}

/// The forms of the columns that may be left out at one value, where no row has them; `Err` where the memory for them
/// was refused.
#[tactic(auto, using(crate::proofs::MayLeave::one_more))]
pub(crate) fn values_out(
    alloc: Global,
    draft: &Draft,
) -> Result<Vec<Option<ColumnForm>>, AllocError>
    ensures { IfOk result (λ forms. MayAllGo draft.now forms.items) }
{
    let mut forms = Vec::new(alloc);
    for column in 0..draft.bounds().len() as u32 {
        forms.push(value_out(draft, column))?;
    }
    Ok(forms)
}

/// Whether a form lets its column go where that is whole: the source is whole, and the form's values are at its values.
fn lets_whole_go(draft: &Draft, column: u32, form: &ColumnForm) -> bool
    requires { IsSubstitute draft.now column form.now }
    ensures { OnTrue result (slice_get draft.now.integral column ≡ Some true → GoesWhole draft.now form.now) }
{
    let _numerator = form.constant.numerator();
    let _denominator = form.constant.denominator();
    if !draft.is_whole(column) {
        return true;
    }
    draft.is_whole(form.source) && assigns(form, draft.bounds().sides(form.source))
}

/// The form by which a column may be left out, where no other row has it: the one that a row gives it.
#[tactic(auto, using(crate::proofs::MayLeave::by_form))]
fn form_out(draft: &Draft, number: usize, column: u32) -> Option<ColumnForm>
    requires { number < length draft.now.rows }
    ensures { IfSome result (GoesByForm draft.now column) }
{
    let Some(form) = form_at(draft, number, column) else {
        return None;
    };
    if form.factor.is_zero() || !is_substitute(draft, column, &form) {
        return None;
    }
    let own = draft.bounds().sides(form.source);
    let outer = draft.bounds().sides(column);
    if !is_free(draft, column)
        || !keeps(&form, own, outer)
        || !lets_whole_go(draft, column, &form)
    {
        return None;
    }
    Some(form)
}

/// Leaves out a column by the form that a row gives it, where no other row has it and it may go: whether it did.
#[tactic(auto, using(crate::proofs::MayLeave::added))]
fn add_lone(
    draft: &Draft,
    forms: &mut Vec<Option<ColumnForm>>,
    counts: &[u32],
    number: usize,
    column: u32,
) -> bool
    requires inside { number < length draft.now.rows }
    requires may { MayAllGo draft.now forms.old.items }
    ensures { MayAllGo draft.now forms.new.items }
{
    let Some(1) = counts.get(column as usize) else {
        return false;
    };
    match form_out(draft, number, column) {
        Some(form) => {
            forms[column as usize] = Some(form);
            true
        }
        None => false,
    }
}

/// Leaves out columns by the forms that rows give them, one of the two of a row, where no other row has it and it may
/// go, where equalities are taken. `Err` comes where the memory for the counts was refused.
pub(crate) fn add_forms(
    alloc: Global,
    draft: &Draft,
    forms: &mut Vec<Option<ColumnForm>>,
    equalities: bool,
) -> Result<(), AllocError>
    requires { MayAllGo draft.now forms.old.items }
    ensures { MayAllGo draft.now forms.new.items }
{
    if !equalities {
        return Ok(());
    }
    let Ok(counts) = row_counts(alloc, draft.rows(), draft.bounds().len()) else {
        return Err(AllocError);
    };
    for number in 0..draft.count() {
        let [first, second] = draft.row(number).terms() else {
            continue;
        };
        if !add_lone(draft, forms, counts.as_slice(), number, first.col) {
            let _added = add_lone(draft, forms, counts.as_slice(), number, second.col);
        }
    }
    Ok(())
}

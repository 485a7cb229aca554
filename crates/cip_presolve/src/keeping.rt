//! Whether the sides of a form's source keep its value between others, and whole and in range.
ghost use Rattle.std.specs.Prelude.{◌≡◌, true};
ghost use Rattle.std.specs.Bool.{OnTrue};
ghost use Rattle.cip_rational.specs.Rational.{ℚ, ◌+ℚ◌, ◌*ℚ◌, IsWhole};
ghost use Rattle.cip_rational.specs.Range.{fits_range};
ghost use Rattle.cip_presolve.specs.FormEnds.{FormKeeps, FormAssigns};

use crate::extents::{negated_value, value_of};
use crate::forms::ColumnForm;
use cip_frac::Frac;
use cip_lin::{Sides, add_least};

/// Whether a form keeps sides wherever its source keeps its own, as far as its least and greatest value tell.
pub fn keeps(form: &ColumnForm, own: Sides, outer: Sides) -> bool
    ensures { OnTrue result (FormKeeps form.now own outer) }
{
    let low = value_of(add_least(form.constant, form.factor, own));
    let high = negated_value(add_least(form.constant.neg(), form.factor.neg(), own));
    Sides { low, high }.is_inside(outer)
}

/// Whether the value of a form at a whole value of its source is in range, and so is the product that is formed before
/// the constant is added, and the source's value is whole.
#[tactic(auto, using(crate::proofs::FormsKept::ends))]
fn fits_at(form: &ColumnForm, value: Frac) -> bool
    ensures whole { OnTrue result (IsWhole value) }
    ensures fits { OnTrue result (fits_range (form.now.constant +ℚ form.now.factor *ℚ value) ≡ true) }
    ensures product { OnTrue result (fits_range (form.now.factor *ℚ value) ≡ true) }
{
    match form.constant.plus_product(form.factor, value) {
        Ok(sum) => {
            let _numerator = sum.numerator();
            let _denominator = sum.denominator();
            value.is_whole()
        }
        Err(_) => false,
    }
}

/// Whether a form has whole values in range at whole values of its source between its sides, and the factor's product
/// with each of these is in range, and there is such a value, as far as the ends tell.
#[tactic(auto, using(crate::proofs::FormsKept::assigning))]
pub fn assigns(form: &ColumnForm, own: Sides) -> bool
    ensures { OnTrue result (FormAssigns form.now own) }
{
    let Some(low) = own.low else {
        return false;
    };
    let Some(high) = own.high else {
        return false;
    };
    if own.cross() || !(form.constant.is_whole() && form.factor.is_whole()) {
        return false;
    }
    fits_at(form, low) && fits_at(form, high)
}

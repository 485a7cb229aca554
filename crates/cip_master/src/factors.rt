//! The factors that a combination has on rows.
ghost use Rattle.std.specs.Prelude.{◌≡◌, length, IfOk};
ghost use Rattle.cip_master.specs.CombinedFactors.{factor_put, factors_put, factors_from};

use cip_frac::Frac;
use cip_lin::{Combo, RowId, RowMultiple};
use std::alloc::{AllocError, Global};

/// Puts a factor at the place of its row, counted from a first number, if that place is there.
fn put_factor(first: usize, multiple: RowMultiple, factors: &mut [Frac])
    ensures { factors.new ≡ factor_put first multiple.row multiple.factor factors.old }
{
    let RowId::Own(number) = multiple.row else {
        return;
    };
    let number = number as usize;
    if first <= number && number - first < factors.len() {
        factors[number - first] = multiple.factor;
    }
}

/// Puts factors at the places of their rows, one after another.
fn put_factors(first: usize, rows: &[RowMultiple], factors: &mut [Frac])
    ensures { factors.new ≡ factors_put first rows.now factors.old }
{
    for at in 0..rows.len() {
        put_factor(first, rows[at], factors);
    }
}

/// The factors of so many rows of a combination, the first of which has this number; 0 where it has none.
pub(crate) fn factors_from(
    alloc: Global,
    first: usize,
    count: usize,
    combo: &Combo,
) -> Result<Vec<Frac>, AllocError>
    ensures factors { IfOk result (λ factors. factors.items ≡ factors_from first count combo.now) }
    ensures long { IfOk result (λ factors. length factors.items ≡ count) }
{
    let mut factors = vec![in alloc; Frac::zero(); count]?;
    put_factors(first, combo.rows.as_slice(), factors.as_mut_slice());
    Ok(factors)
}

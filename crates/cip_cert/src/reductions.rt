//! Single bounds on columns.
ghost use Rattle.std.specs.Prelude.{◌≡◌, ◌≢◌, ◌≤◌, ◌<◌, length, slice_index_or, false, Some};
ghost use Rattle.cip_rational.specs.Rational.{zeroℚ, le_test};
ghost use Rattle.cip_cert.specs.Lent.{lent_of, Fits, multiples_of};
ghost use Rattle.cip_cert.specs.Checks.{quotient_at, implied_low, implied_high, low_allowed, high_allowed, low_reduced, high_reduced};

use crate::checks::rests_row;
use crate::faults::{CutFault, FaultPlace};
use crate::rows::Rows;
use crate::sparse::SparseRow;
use cip_frac::Frac;
use cip_lin::{Bounds, Combo};

/// The quotient of a bound by the coefficient of a column.
fn quotient(column: u32, bound: Frac, coefficient: Frac) -> Result<Frac, CutFault>
    requires { coefficient ≢ zeroℚ }
    ensures { result ≡ quotient_at column bound coefficient }
{
    match bound.div(coefficient) {
        Ok(quotient) => Ok(quotient),
        Err(_) => Err(CutFault::Wide {
            place: FaultPlace::Column(column as usize),
        }),
    }
}

/// The low side that is implied, if the coefficient is above 0.
fn low_side(
    column: u32,
    whole: bool,
    coefficient: Frac,
    bound: Frac,
) -> Result<Option<Frac>, CutFault>
    ensures { result ≡ implied_low column whole coefficient bound }
{
    if !coefficient.is_positive() {
        return Ok(None);
    }
    match quotient(column, bound, coefficient) {
        Ok(side) if whole => Ok(Some(side.rounded_up())),
        Ok(side) => Ok(Some(side)),
        Err(fault) => Err(fault),
    }
}

/// The high side that is implied, if the coefficient is below 0.
fn high_side(
    column: u32,
    whole: bool,
    coefficient: Frac,
    bound: Frac,
) -> Result<Option<Frac>, CutFault>
    ensures { result ≡ implied_high column whole coefficient bound }
{
    if !coefficient.is_negative() {
        return Ok(None);
    }
    match quotient(column, bound, coefficient) {
        Ok(side) if whole => Ok(Some(side.rounded_down())),
        Ok(side) => Ok(Some(side)),
        Err(fault) => Err(fault),
    }
}

/// Whether a number is at most another.
fn is_at_most(value: Frac, other: Frac) -> bool
    ensures { result ≡ le_test value other }
{
    value <= other
}

/// Whether a low side is implied: a side at least as strong is.
fn allow_low(value: Frac, implied: Option<Frac>) -> Result<Frac, CutFault>
    ensures { result ≡ low_allowed value implied }
{
    let Some(side) = implied else {
        return Err(CutFault::NotImplied { implied: None });
    };
    if is_at_most(value, side) {
        Ok(value)
    } else {
        Err(CutFault::NotImplied { implied })
    }
}

/// Whether a high side is implied: a side at least as strong is.
fn allow_high(value: Frac, implied: Option<Frac>) -> Result<Frac, CutFault>
    ensures { result ≡ high_allowed value implied }
{
    let Some(side) = implied else {
        return Err(CutFault::NotImplied { implied: None });
    };
    if is_at_most(side, value) {
        Ok(value)
    } else {
        Err(CutFault::NotImplied { implied })
    }
}

/// A low side of a column, if a combination implies it.
pub(crate) fn low_reduced_row(
    rows: &Rows<'_>,
    bounds: &Bounds,
    column: u32,
    value: Frac,
    combo: &Combo,
    row: &mut SparseRow,
) -> Result<Frac, CutFault>
    requires fits { Fits (length bounds.now) (lent_of rows.now) }
    requires room { length bounds.now ≤ length row.old.entries }
    requires flags { length rows.now.whole.now ≡ length bounds.now }
    requires inside { column < length bounds.now }
    ensures steps { result ≡ low_reduced (lent_of rows.entry.now)
        (slice_index_or rows.entry.now.whole.now column false) bounds.now (length row.old.entries) column value
        (multiples_of combo.now) }
    ensures columns { length row.new.entries ≡ length row.old.entries }
{
    let bound = match rests_row(rows, bounds, Some(column), combo, row) {
        Ok(bound) => bound,
        Err(fault) => return Err(fault),
    };
    let coefficient = row.entries()[column as usize];
    match low_side(column, rows.whole[column as usize], coefficient, bound) {
        Ok(implied) => allow_low(value, implied),
        Err(fault) => Err(fault),
    }
}

/// A high side of a column, if a combination implies it.
pub(crate) fn high_reduced_row(
    rows: &Rows<'_>,
    bounds: &Bounds,
    column: u32,
    value: Frac,
    combo: &Combo,
    row: &mut SparseRow,
) -> Result<Frac, CutFault>
    requires fits { Fits (length bounds.now) (lent_of rows.now) }
    requires room { length bounds.now ≤ length row.old.entries }
    requires flags { length rows.now.whole.now ≡ length bounds.now }
    requires inside { column < length bounds.now }
    ensures steps { result ≡ high_reduced (lent_of rows.entry.now)
        (slice_index_or rows.entry.now.whole.now column false) bounds.now (length row.old.entries) column value
        (multiples_of combo.now) }
    ensures columns { length row.new.entries ≡ length row.old.entries }
{
    let bound = match rests_row(rows, bounds, Some(column), combo, row) {
        Ok(bound) => bound,
        Err(fault) => return Err(fault),
    };
    let coefficient = row.entries()[column as usize];
    match high_side(column, rows.whole[column as usize], coefficient, bound) {
        Ok(implied) => allow_high(value, implied),
        Err(fault) => Err(fault),
    }
}

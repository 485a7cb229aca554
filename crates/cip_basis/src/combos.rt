//! The multipliers of a basis, as a combination.
use crate::Given;
use crate::given::number_of;
use crate::lists::{item_at, put_at};
use crate::placement::Placement;
use crate::values::scaled;
use cip_frac::Frac;
use cip_lin::{Combo, RowId, RowMultiple};
use std::alloc::{AllocError, Global};

/// A combination without rows.
pub(crate) fn empty_combo(alloc: Global) -> Combo {
    Combo {
        rows: Vec::new(alloc),
        lows: Vec::new(alloc),
        highs: Vec::new(alloc),
    }
}

/// Puts a row with a factor into a combination, unless the factor is 0.
pub(crate) fn put_multiple(
    given: &Given,
    number: u32,
    factor: Frac,
    rows: &mut Vec<RowMultiple>,
) -> Result<(), AllocError> {
    if factor.is_zero() {
        return Ok(());
    }
    let place = (number as usize).wrapping_sub(given.own.len());
    let row = match given.ids.get(place) {
        Some(id) => RowId::Pool(*id),
        None => RowId::Own(number),
    };
    rows.push(RowMultiple { row, factor })?;
    Ok(())
}

/// Puts the loose rows with their multipliers, or the opposites of these, times what the rows are multiplied by into a
/// combination; whether all are in range.
pub(crate) fn put_multiples(
    given: &Given,
    placement: &Placement,
    scales: &[u64],
    multipliers: &[Frac],
    is_turned: bool,
    rows: &mut Vec<RowMultiple>,
) -> Result<bool, AllocError> {
    for (place, number) in placement.rows.iter().enumerate() {
        let multiplier = item_at(multipliers, place, Frac::zero());
        let Some(factor) = scaled(multiplier, item_at(scales, place, 1)) else {
            return Ok(false);
        };
        let turned = if is_turned { factor.neg() } else { factor };
        put_multiple(given, *number, turned, rows)?;
    }
    Ok(true)
}

/// Sets the number of a column, if that is a basic one.
fn set_column(out: &mut [Frac], placement: &Placement, column: u32, number: Frac) {
    if let Some(place) = placement.place(column) {
        put_at(out, place, number);
    }
}

/// Puts the costs of the basic columns into a list.
fn put_costs(given: &Given, columns: &[u32], out: &mut [Frac]) {
    for (place, column) in columns.iter().enumerate() {
        put_at(out, place, given.cost(*column as usize));
    }
}

/// What a basic variable takes of the basic columns: of a column 1 on itself, of a row its coefficients; without a
/// variable what the costs take of them.
pub(crate) fn put_line(
    given: &Given,
    placement: &Placement,
    variable: Option<u32>,
    out: &mut Vec<Frac>,
) -> Result<(), AllocError> {
    out.clear();
    out.resize(placement.columns.len(), Frac::zero())?;
    let numbers = out.as_mut_slice();
    let Some(number) = variable else {
        put_costs(given, placement.columns.as_slice(), numbers);
        return Ok(());
    };
    let columns = given.columns();
    if (number as usize) < columns {
        set_column(numbers, placement, number, Frac::one());
    } else if let Some(row) = given.row((number as usize).wrapping_sub(columns)) {
        for term in row.terms() {
            set_column(numbers, placement, term.col, term.coef);
        }
    }
    Ok(())
}

/// Puts the row of a basic variable, if it is that of one, once into a combination that is to show that it can't be
/// brought between its sides, being below, or above, them.
pub(crate) fn put_own_row(
    given: &Given,
    variable: u32,
    below: bool,
    rows: &mut Vec<RowMultiple>,
) -> Result<(), AllocError> {
    let Some(row) = row_of(given, variable) else {
        return Ok(());
    };
    let one = Frac::one();
    let factor = if below { one } else { one.neg() };
    put_multiple(given, row, factor, rows)
}

/// The number of the row of a variable, if it is that of one.
pub(crate) fn row_of(given: &Given, variable: u32) -> Option<u32> {
    let columns = given.columns();
    let place = variable as usize;
    if place < columns {
        None
    } else {
        Some(number_of(place.wrapping_sub(columns)))
    }
}

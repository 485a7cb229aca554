//! The matrix of a basis: the loose rows on the basic columns, each times what makes it whole.
use crate::placement::Placement;
use crate::systems::common_multiple;
use crate::{Given, System, times_whole};
use cip_lin::Row;
use std::alloc::{AllocError, Global};

/// The least common denominator of the coefficients of a row on basic columns, where it has at most 63 bits.
fn denominator_of(row: &Row, placement: &Placement) -> Option<u64> {
    let mut common = 1;
    for term in row.terms() {
        if placement.place(term.col).is_some() {
            common = common_multiple(common, term.coef)?;
        }
    }
    Some(common)
}

/// Puts a row, times a number, into the matrix; whether its numbers have 64 bits.
fn put_row(
    row: &Row,
    place: usize,
    common: u64,
    placement: &Placement,
    system: &mut System,
) -> Result<bool, AllocError> {
    for term in row.terms() {
        let Some(column) = placement.place(term.col) else {
            continue;
        };
        let Some(whole) = times_whole(term.coef, common) else {
            return Ok(false);
        };
        let Ok(number) = i64::try_from(whole) else {
            return Ok(false);
        };
        system.put(place, column, number)?;
    }
    Ok(true)
}

/// Makes the matrix, and lists by what its rows are multiplied, which makes them whole on the basic columns; whether
/// that and its numbers have 64 bits.
pub(crate) fn make_matrix(
    alloc: Global,
    given: &Given,
    placement: &Placement,
    system: &mut System,
    scales: &mut Vec<u64>,
) -> Result<bool, AllocError> {
    scales.clear();
    system.begin(alloc, placement.columns.len())?;
    for (place, number) in placement.rows.iter().enumerate() {
        let Some(row) = given.row(*number as usize) else {
            return Ok(false);
        };
        let Some(common) = denominator_of(row, placement) else {
            return Ok(false);
        };
        scales.push(common)?;
        if !put_row(row, place, common, placement, system)? {
            return Ok(false);
        }
    }
    Ok(true)
}

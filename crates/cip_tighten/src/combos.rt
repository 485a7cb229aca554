//! Combinations that cuts are made of.
use crate::shifts::Shift;
use crate::stops::Stop;
use cip_frac::Frac;
use cip_lin::{ColumnMultiple, Combo, RowId, RowMultiple};
use std::alloc::Global;

/// No row and no side.
pub fn empty_combo(alloc: Global) -> Combo {
    Combo {
        rows: Vec::new(alloc),
        lows: Vec::new(alloc),
        highs: Vec::new(alloc),
    }
}

/// Adds a row, a quotient of two numbers times. `GaveUp` where the quotient is none or leaves the range, `NoMemory`
/// where memory was refused.
pub fn push_row(combo: &mut Combo, row: RowId, over: i128, under: i128) -> Result<(), Stop> {
    let Ok(factor) = Frac::new(over, under) else {
        return Err(Stop::GaveUp);
    };
    combo.rows.push(RowMultiple { row, factor })?;
    Ok(())
}

/// Adds that a way is at least 0, a quotient of two numbers times, unless that is 0. Errors come as of a row, and
/// `GaveUp` also where the way has no side.
pub fn push_way(combo: &mut Combo, shift: Shift, over: i128, under: i128) -> Result<(), Stop> {
    let Ok(weight) = Frac::new(over, under) else {
        return Err(Stop::GaveUp);
    };
    if weight.is_zero() {
        return Ok(());
    }
    if shift.side.is_none() {
        return Err(Stop::GaveUp);
    }
    let col = shift.col;
    if shift.is_turned {
        let factor = weight.neg();
        combo.highs.push(ColumnMultiple { col, factor })?;
    } else {
        combo.lows.push(ColumnMultiple {
            col,
            factor: weight,
        })?;
    }
    Ok(())
}

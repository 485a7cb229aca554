//! Combinations by a multiplier for each variable.
ghost use Rattle.std.specs.Prelude.{◌≡◌, ◌+◌, ◌-◌, ◌<◌, ◌≤◌, ◌^◌, length, map, if◌then◌else◌, IfOk};
ghost use Rattle.cip_problem.specs.Activity.{value_at};
ghost use Rattle.cip_bland.specs.Tables.{each};
ghost use Rattle.cip_bland.specs.EndAnswers.{any_multiple, low_multiple, high_multiple};
ghost use Rattle.cip_simplex.specs.LpAnswers.{row_multiple, column_multiple, IsCombo};
ghost use Rattle.cip_simplex.specs.Certificates.{certificate_on};

use cip_dict::Frac;
use cip_lin::{ColumnMultiple, Combo, RowId, RowMultiple};
use std::alloc::{AllocError, Global};

/// The rows whose multiplier isn't 0; those of the rows stand after those of the columns.
fn rows_with(
    alloc: Global,
    columns: usize,
    multipliers: &[Frac],
) -> Result<Vec<RowMultiple>, AllocError>
    requires few { length multipliers.now < 2 ^ 32 }
    ensures { IfOk result (λ rows. rows.items ≡ map row_multiple
        (each (length multipliers.now - columns) (λ r. any_multiple r (value_at multipliers.now (columns + r))))) }
{
    let mut rows = Vec::new(alloc);
    for r in 0..multipliers.len().saturating_sub(columns) {
        let factor = multipliers[columns + r];
        if factor.is_zero() {
            continue;
        }
        let row = RowId::Own(r as u32);
        rows.push(RowMultiple { row, factor })?;
    }
    Ok(rows)
}

/// The columns whose multiplier is above 0, or those whose multiplier is below 0.
fn columns_with(
    alloc: Global,
    columns: usize,
    multipliers: &[Frac],
    above: bool,
) -> Result<Vec<ColumnMultiple>, AllocError>
    requires few { length multipliers.now < 2 ^ 32 }
    requires within { columns ≤ length multipliers.now }
    ensures { IfOk result (λ listed. listed.items ≡ map column_multiple (each columns (λ k.
        if above then low_multiple k (value_at multipliers.now k) else high_multiple k (value_at multipliers.now k)))) }
{
    let mut listed = Vec::new(alloc);
    for k in 0..columns {
        let factor = multipliers[k];
        let counts = if above {
            factor.is_positive()
        } else {
            factor.is_negative()
        };
        if !counts {
            continue;
        }
        let col = k as u32;
        listed.push(ColumnMultiple { col, factor })?;
    }
    Ok(listed)
}

/// The combination of multipliers, those of so many columns and after them those of the rows: rows whose multiplier
/// isn't 0, the low sides of columns where it is above 0 and the high sides where it is below 0. `Err` where memory was
/// refused.
pub(crate) fn combination(
    alloc: Global,
    columns: usize,
    multipliers: &[Frac],
) -> Result<Combo, AllocError>
    requires few { length multipliers.now < 2 ^ 32 }
    requires within { columns ≤ length multipliers.now }
    ensures { IfOk result
        (IsCombo (certificate_on columns (length multipliers.now - columns) (value_at multipliers.now))) }
{
    let rows = rows_with(alloc, columns, multipliers)?;
    let lows = columns_with(alloc, columns, multipliers, true)?;
    let highs = columns_with(alloc, columns, multipliers, false)?;
    Ok(Combo { rows, lows, highs })
}

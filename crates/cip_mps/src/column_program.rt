//! The columns of the program: costs, whole columns, bounds and choices.
ghost use Rattle.std.specs.Prelude.{◌≡◌, ◌≤◌, [], true, map, nat_le, IfOk, if◌then◌else◌};
ghost use Rattle.std.specs.List.{list_all, list_any};
ghost use Rattle.cip_problem.specs.Limits.{most_columns};
ghost use Rattle.cip_text_rules.specs.MpsBounds.{settled, is_semi, column_sides, choice_of};
ghost use Rattle.cip_text_rules.specs.MpsState.{held_value, minimized_by, costs_from};
ghost use Rattle.cip_text_rules.specs.MpsSoundState.{rises};
ghost use Rattle.cip_mps.specs.Costs.{held_behind};

use crate::Held;
use crate::column_draft::ColumnDraft;
use cip_frac::Frac;
use cip_lin::{Bounds, Choices};
use std::alloc::{AllocError, Global};

/// A cost in the minimised form.
pub(crate) fn minimized(sense: Option<bool>, cost: Frac) -> Frac
    ensures { result ≡ minimized_by sense cost }
{
    if sense.unwrap_or(false) {
        cost.neg()
    } else {
        cost
    }
}

/// Whether each column takes whole values only.
pub(crate) fn wholes_of(alloc: Global, columns: &[ColumnDraft]) -> Result<Vec<bool>, AllocError>
    ensures { IfOk result (λ wholes. wholes.items ≡ map (λ column. (settled column).whole) columns.now) }
{
    let mut wholes = Vec::new(alloc);
    for column in columns {
        wholes.push(column.is_whole())?;
    }
    Ok(wholes)
}

/// The sides of the columns.
pub(crate) fn bounds_of(alloc: Global, columns: &[ColumnDraft]) -> Result<Bounds, AllocError>
    ensures { IfOk result (λ bounds. bounds ≡ map (λ column. column_sides (settled column)) columns.now) }
{
    let mut bounds = Bounds::new(alloc, 0)?;
    for column in columns {
        let Ok(()) = bounds.push(column.sides()) else {
            drop(bounds);
            return Err(AllocError);
        };
    }
    Ok(bounds)
}

/// Whether a column is semi-continuous.
fn any_semi(columns: &[ColumnDraft]) -> bool
    ensures { result ≡ list_any (λ column. is_semi (settled column)) columns.now }
{
    for column in columns {
        if column.is_semi() {
            return true;
        }
    }
    false
}

/// The choices of the columns; there are none, and they take no memory, where no column is semi-continuous.
pub(crate) fn choices_of(alloc: Global, columns: &[ColumnDraft]) -> Result<Choices, AllocError>
    ensures { IfOk result (λ choices. choices
        ≡ (if list_any (λ column. is_semi (settled column)) columns.now
        then map (λ column. choice_of (settled column)) columns.now else [])) }
{
    let mut choices = Choices::new(alloc);
    if !any_semi(columns) {
        return Ok(choices);
    }
    for column in columns {
        let Ok(()) = choices.push(column.choice()) else {
            drop(choices);
            return Err(AllocError);
        };
    }
    Ok(choices)
}

/// The number of a column among numbers by rising column, none of which stands before it, and those behind it.
fn value_at(held: &[Held], column: u32) -> (Frac, &[Held])
    requires from { list_all (λ h. nat_le column h.column) held.now ≡ true }
    requires rising { rises held.now ≡ true }
    ensures value { result.0 ≡ held_value held.now column }
    ensures rest { result.1.now ≡ held_behind held.now column }
{
    match held {
        [] => (Frac::zero(), held),
        [first, rest @ ..] => {
            if first.column == column {
                (first.value, rest)
            } else {
                (Frac::zero(), held)
            }
        }
    }
}

/// The costs of so many columns, in the minimised form, where the objective has these numbers.
pub(crate) fn costs_of(
    alloc: Global,
    sense: Option<bool>,
    held: &[Held],
    columns: usize,
) -> Result<Vec<Frac>, AllocError>
    requires rising { rises held.now ≡ true }
    requires few { columns ≤ most_columns }
    ensures { IfOk result (λ costs. costs.items ≡ costs_from sense held.now 0 columns) }
{
    let mut costs = Vec::new(alloc);
    let mut rest = held;
    for column in 0..columns {
        let (cost, behind) = value_at(rest, column as u32);
        costs.push(minimized(sense, cost))?;
        rest = behind;
    }
    Ok(costs)
}

//! The numbers of a group, put into rows of the program.
ghost use Rattle.std.specs.Prelude.{◌≡◌, ◌∷◌, [], true, map, nat_lt, slice_index_or, OnOk};
ghost use Rattle.std.specs.List.{list_all};
ghost use Rattle.cip_problem.specs.Program.{no_row};
ghost use Rattle.cip_text_rules.specs.MpsState.{is_zero_value, terms_from};
ghost use Rattle.cip_mps.specs.GroupEntries.{near_entry, far_entry};
ghost use Rattle.cip_mps.specs.GroupedRows.{with_terms, put_number, put_numbers, follow};

use crate::groups::{Far, Held, Near};
use cip_frac::Frac;
use cip_lin::{Row, RowFault, Term};
use std::alloc::AllocError;

/// Whether a value is 0.
fn is_zero(value: Frac) -> bool
    ensures { result ≡ is_zero_value value }
{
    value.is_zero()
}

/// Puts the number of a row behind its terms; 0 is no term. `Err` comes where a growth was refused.
fn append(row: &mut Row, held: Held) -> Result<(), AllocError>
    requires { list_all (λ term. nat_lt term.column held.column) row.old.terms ≡ true }
    ensures { OnOk result (row.new ≡ with_terms (terms_from (held ∷ [])) row.old) }
{
    if is_zero(held.value) {
        return Ok(());
    }
    let term = Term {
        col: held.column,
        coef: held.value,
    };
    match row.append(term) {
        Ok(()) => Ok(()),
        Err(RowFault::NoMemory) => Err(AllocError),
        Err(RowFault::NotRising { .. }) => unreachable!(),
        Err(RowFault::ZeroTerm { .. }) => unreachable!(),
    }
}

/// Puts a number into the row at its place, if there is one. `Err` comes where a growth was refused.
fn put_number(rows: &mut Vec<Row>, place: u32, held: Held) -> Result<(), AllocError>
    requires { list_all (λ term. nat_lt term.column held.column) (slice_index_or rows.old.items place no_row).terms
        ≡ true }
    ensures { OnOk result (rows.new.items ≡ put_number rows.old.items (record { row = place; held = held })) }
{
    let place = place as usize;
    if place < rows.len() {
        let row = &mut rows[place];
        append(row, held)?;
    }
    Ok(())
}

/// Puts numbers of 32 bits into their rows. `Err` comes where a growth was refused.
pub(crate) fn put_near(rows: &mut Vec<Row>, near: &[Near]) -> Result<(), AllocError>
    requires { follow rows.old.items (map near_entry near.now) ≡ true }
    ensures { OnOk result (rows.new.items ≡ put_numbers rows.old.items (map near_entry near.now)) }
{
    for number in near {
        put_number(rows, number.row, number.held())?;
    }
    Ok(())
}

/// Puts other numbers into their rows. `Err` comes where a growth was refused.
pub(crate) fn put_far(rows: &mut Vec<Row>, far: &[Far]) -> Result<(), AllocError>
    requires { follow rows.old.items (map far_entry far.now) ≡ true }
    ensures { OnOk result (rows.new.items ≡ put_numbers rows.old.items (map far_entry far.now)) }
{
    for number in far {
        put_number(rows, number.row, number.held())?;
    }
    Ok(())
}

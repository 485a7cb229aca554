//! The rows of a program that is drawn.
ghost use Rattle.std.specs.Prelude.{◌≡◌, ◌*◌, ◌≤◌, ◌++◌, ◌∷◌, [], map, nat_lt, if◌then◌else◌, IfOk, OnOk};
ghost use Rattle.std.specs.List.{range_with_len};
ghost use Rattle.cip_problem.specs.Activity.{StandsBelow};
ghost use Rattle.cip_input.specs.Generated.{term_on, row_from, state_after};

use crate::draws::Draws;
use crate::programs::MOST_DRAWN;
use cip_frac::Frac;
use cip_lin::{Row, RowFault, Term};
use std::alloc::{AllocError, Global};

/// Puts the term of a column behind those of the columns before it; 0 is no term. `Err` comes where a growth was
/// refused.
fn put_term(row: &mut Row, column: u32, coefficient: u64) -> Result<(), AllocError>
    requires below { StandsBelow column row.old.terms }
    requires small { coefficient ≤ 9 }
    ensures { OnOk result (row.new ≡ record row.old {
      terms = row.old.terms ++ (if nat_lt 0 coefficient then term_on column coefficient ∷ [] else []);
    }) }
{
    if coefficient == 0 {
        return Ok(());
    }
    let term = Term {
        col: column,
        coef: Frac::from(coefficient as i64),
    };
    match row.append(term) {
        Ok(()) => Ok(()),
        Err(RowFault::NoMemory) => Err(AllocError),
        Err(RowFault::NotRising { .. }) => unreachable!(),
        Err(RowFault::ZeroTerm { .. }) => unreachable!(),
    }
}

/// A row over so many columns, from the next draws.
fn drawn_row(alloc: Global, draws: &mut Draws, columns: usize) -> Result<Row, AllocError>
    requires { columns ≤ MOST_DRAWN }
    ensures row { IfOk result (λ row. row ≡ row_from columns draws.old.state) }
    ensures state { OnOk result (draws.new.state ≡ state_after columns draws.old.state) }
{
    let mut row = Row::empty(alloc, None, None);
    let mut total = 0;
    for column in 0..columns {
        let coefficient = draws.draw() % 10;
        put_term(&mut row, column as u32, coefficient)?;
        total += coefficient;
    }
    row.set_high(Some(Frac::from(total as i64)));
    Ok(row)
}

/// So many rows over so many columns, one after another from the next draws.
pub(crate) fn drawn_rows(
    alloc: Global,
    draws: &mut Draws,
    columns: usize,
    count: usize,
) -> Result<Vec<Row>, AllocError>
    requires { columns ≤ MOST_DRAWN }
    ensures { IfOk result (λ rows. rows.items
        ≡ map (λ row. row_from columns (state_after (row * columns) draws.old.state)) (range_with_len 0 count)) }
{
    let mut rows = Vec::new(alloc);
    for _number in 0..count {
        rows.push(drawn_row(alloc, draws, columns)?)?;
    }
    Ok(rows)
}

//! Rows that say nothing, or stand on a column that is gone, are dropped; the others get the new numbers of their
//! columns.
ghost use Rattle.std.specs.Prelude.{◌≡◌, false, IfOk, OnOk, length, map, slice_index_or};
ghost use Rattle.cip_problem.specs.Activity.{StandsBelow};
ghost use Rattle.cip_presolve.specs.LeftProgram.{says_nothing, stands_on_gone, is_dropped, dropped_rows, moved_term, moved_row, CanMove, AllMove};

use crate::row_copies::row_of_terms;
use cip_lin::{Row, Term};
use std::alloc::{AllocError, Global};

/// Whether a row says nothing: it has no term and no side.
pub fn says_nothing(row: &Row) -> bool
    ensures { result ≡ says_nothing row.now }
{
    match (row.terms(), row.low(), row.high()) {
        ([], None, None) => true,
        _ => false,
    }
}

/// Whether a column is gone.
fn is_gone(gone: &[bool], column: u32) -> bool
    ensures { result ≡ slice_index_or gone.now column false }
{
    match gone.get(column as usize) {
        Some(flag) => *flag,
        None => false,
    }
}

/// Whether a term stands on a column that is gone.
#[tactic(auto, using(crate::proofs::MovedRows::standing))]
fn stands_on_gone(gone: &[bool], terms: &[Term]) -> bool
    ensures { result ≡ stands_on_gone gone.now terms.now }
{
    for term in terms {
        if is_gone(gone, term.col) {
            return true;
        }
    }
    false
}

/// Whether a row is dropped: it says nothing, or stands on a column that is gone.
pub(crate) fn is_dropped(gone: &[bool], row: &Row) -> bool
    ensures { result ≡ is_dropped gone.now row.now }
{
    says_nothing(row) || stands_on_gone(gone, row.terms())
}

/// Whether each row is dropped; `Err` where the memory for it was refused.
pub(crate) fn dropped_rows(
    alloc: Global,
    gone: &[bool],
    rows: &[Row],
) -> Result<Vec<bool>, AllocError>
    ensures { IfOk result (λ dropped. dropped.items ≡ dropped_rows gone.now rows.now) }
{
    let mut dropped = Vec::new(alloc);
    for row in rows {
        dropped.push(is_dropped(gone, row))?;
    }
    Ok(dropped)
}

/// Terms over the new numbers of their columns; `Err` where the memory for them was refused.
fn moved_terms(alloc: Global, terms: &[Term], numbers: &[u32]) -> Result<Vec<Term>, AllocError>
    requires { StandsBelow (length numbers.now) terms.now }
    ensures { IfOk result (λ moved. moved.items ≡ map (moved_term numbers.now) terms.now) }
{
    let mut moved = Vec::new(alloc);
    for term in terms {
        moved.push(Term {
            col: numbers[term.col as usize],
            coef: term.coef,
        })?;
    }
    Ok(moved)
}

/// A row over the new numbers of its columns; `Err` where the memory for it was refused.
fn moved(alloc: Global, row: &Row, numbers: &[u32]) -> Result<Row, AllocError>
    requires { CanMove numbers.now row.now }
    ensures { IfOk result (λ new. new ≡ moved_row numbers.now row.now) }
{
    let terms = moved_terms(alloc, row.terms(), numbers)?;
    row_of_terms(alloc, terms.as_slice(), row.low(), row.high())
}

/// Gives each row the new numbers of its columns. `Err` comes where the memory for one was refused.
#[tactic(auto, using(crate::proofs::MovedRows::moving))]
pub(crate) fn move_all(
    alloc: Global,
    rows: &mut Vec<Row>,
    numbers: &[u32],
) -> Result<(), AllocError>
    requires { AllMove numbers.now rows.old.items }
    ensures { OnOk result (rows.new.items ≡ map (moved_row numbers.now) rows.old.items) }
{
    for at in 0..rows.len() {
        let row = moved(alloc, &rows[at], numbers)?;
        rows[at] = row;
    }
    Ok(())
}

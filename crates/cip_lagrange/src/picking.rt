//! What stands in the lists of a program at the numbers of a block's columns and rows.
ghost use Rattle.std.specs.Prelude.{◌≡◌, length, map, All, IfOk};
ghost use Rattle.cip_problem.specs.Activity.{StandsBelow};
ghost use Rattle.cip_lagrange.specs.Numbers.{found};
ghost use Rattle.cip_lagrange.specs.Places.{placed_row};

use cip_model::{Bounds, Choices, Row, Term};
use std::alloc::{AllocError, Global};

/// The flags at these numbers, as far as they are there.
#[tactic(auto, using(crate::proofs::Found::found_flag, crate::proofs::Found::found_past))]
pub(crate) fn flags_at(
    alloc: Global,
    flags: &[bool],
    numbers: &[u32],
) -> Result<Vec<bool>, AllocError>
    ensures { IfOk result (λ kept. kept.items ≡ found flags.now numbers.now) }
{
    let mut kept = Vec::new(alloc);
    for number in numbers {
        let at = *number as usize;
        if at < flags.len() {
            kept.push(flags[at])?;
        }
    }
    Ok(kept)
}

/// The sides at these numbers, as far as they are there.
#[tactic(auto, using(crate::proofs::Found::found_sides, crate::proofs::Found::found_past))]
pub(crate) fn sides_at(
    alloc: Global,
    bounds: &Bounds,
    numbers: &[u32],
) -> Result<Bounds, AllocError>
    ensures { IfOk result (λ kept. kept ≡ found bounds.now numbers.now) }
{
    let mut kept = Bounds::new(alloc, 0)?;
    for number in numbers {
        if (*number as usize) < bounds.len() {
            let Ok(()) = kept.push(bounds.sides(*number)) else {
                drop(kept);
                return Err(AllocError);
            };
        }
    }
    Ok(kept)
}

/// The choices at these numbers, as far as they are there.
#[tactic(auto, using(crate::proofs::Found::found_choice, crate::proofs::Found::found_past))]
pub(crate) fn choices_at(
    alloc: Global,
    choices: &Choices,
    numbers: &[u32],
) -> Result<Choices, AllocError>
    ensures { IfOk result (λ kept. kept ≡ found choices.now numbers.now) }
{
    let mut kept = Choices::new(alloc);
    for number in numbers {
        if (*number as usize) < choices.len() {
            let Ok(()) = kept.push(choices.at(*number)) else {
                drop(kept);
                return Err(AllocError);
            };
        }
    }
    Ok(kept)
}

/// A row whose terms name each column by its place.
fn placed_row(alloc: Global, row: &Row, places: &[u32]) -> Result<Row, AllocError>
    requires { StandsBelow (length places.now) row.now.terms }
    ensures { IfOk result (λ placed. placed ≡ placed_row places.now row.now) }
{
    let mut placed = Row::empty(alloc, row.low(), row.high());
    let terms = row.terms();
    for term in terms {
        let col = places[term.col as usize];
        let coef = term.coef;
        if placed.append(Term { col, coef }).is_err() {
            drop(placed);
            return Err(AllocError);
        }
    }
    Ok(placed)
}

/// The rows at these numbers, as far as they are there, whose terms name each column by its place.
#[tactic(auto, using(crate::proofs::Found::found_row, crate::proofs::Found::found_past))]
pub(crate) fn rows_at(
    alloc: Global,
    rows: &[Row],
    numbers: &[u32],
    places: &[u32],
) -> Result<Vec<Row>, AllocError>
    requires { All (λ row. StandsBelow (length places.now) row.terms) rows.now }
    ensures { IfOk result (λ kept. kept.items ≡ map (placed_row places.now) (found rows.now numbers.now)) }
{
    let mut kept = Vec::new(alloc);
    for number in numbers {
        let at = *number as usize;
        if at < rows.len() {
            kept.push(placed_row(alloc, &rows[at], places)?)?;
        }
    }
    Ok(kept)
}

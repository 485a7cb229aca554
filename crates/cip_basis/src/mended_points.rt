//! Values near the point of a basis that is guessed, changed until they keep the rows.
use crate::values::{brought_between, put_values, sum_at};
use crate::{Given, Guess, rounded_outward};
use cip_frac::Frac;
use cip_lin::{Row, Sides, Term};
use std::alloc::{AllocError, Global};

// How often all rows are looked at.
const MOST_LOOKS: u32 = 8;

// The most columns of a row that are changed for it at once.
const MOST_CHANGES: u32 = 8;

/// By how much a sum has to rise to lie between sides, below 0 where it has to fall; none where that is out of range.
fn gap_of(sides: Sides, sum: Frac) -> Option<Frac> {
    let side = brought_between(sides, sum);
    if side == sum {
        return Some(Frac::zero());
    }
    side.sub(sum).ok()
}

/// Of the columns of a row whose values may go to where the row wants them, the one with the greatest coefficient.
fn best_term(given: &Given, row: &Row, gap: Frac, values: &[Frac]) -> Option<Term> {
    let mut best = None;
    let mut greatest = Frac::zero();
    for term in row.terms() {
        let column = term.col as usize;
        let sides = given.sides(column);
        let rises = gap.is_positive() == term.coef.is_positive();
        let side = if rises { sides.high } else { sides.low };
        let size = term.coef.abs();
        if size > greatest && side != Some(*values.get(column)?) {
            greatest = size;
            best = Some(*term);
        }
    }
    best
}

/// Changes a column by as much as a gap of a row wants, as far as its sides allow, and answers what is left of the gap:
/// by exactly that, where the row has one side for both, and else rounded away from 0 to a multiple of 2^-20. None
/// where a number is out of range.
fn close_by(given: &Given, row: &Row, term: Term, gap: Frac, values: &mut [Frac]) -> Option<Frac> {
    let column = term.col as usize;
    if term.coef.is_zero() {
        return None;
    }
    let Ok(mut step) = gap.div(term.coef) else {
        return None;
    };
    if row.low() != row.high() {
        step = rounded_outward(step)?;
    }
    let place = values.get_mut(column)?;
    let before = *place;
    let Ok(wanted) = before.add(step) else {
        return None;
    };
    let after = brought_between(given.sides(column), wanted);
    *place = after;
    let Ok(moved) = after.sub(before) else {
        return None;
    };
    let Ok(closed) = moved.mul(term.coef) else {
        return None;
    };
    gap.sub(closed).ok()
}

/// Changes values of columns of a row until it is kept; whether it was kept before. None where that fails.
fn mend_row(given: &Given, row: &Row, values: &mut [Frac]) -> Option<bool> {
    let sides = Sides {
        low: row.low(),
        high: row.high(),
    };
    let mut gap = gap_of(sides, sum_at(row, values)?)?;
    let was_kept = gap.is_zero();
    let rises = gap.is_positive();
    for _ in 0..MOST_CHANGES {
        if gap.is_zero() || gap.is_positive() != rises {
            return Some(was_kept);
        }
        let term = best_term(given, row, gap, values)?;
        gap = close_by(given, row, term, gap, values)?;
    }
    None
}

/// Mends each row once; whether all were kept before. None where that fails.
fn mend_rows(given: &Given, values: &mut [Frac]) -> Option<bool> {
    let mut are_kept = true;
    for number in 0..given.rows() {
        let was_kept = mend_row(given, given.row(number)?, values)?;
        are_kept = are_kept && was_kept;
    }
    Some(are_kept)
}

/// Values near the point of the basis of a guess, rounded to multiples of 2^-20, and changed where a row isn't kept, in
/// few columns of that row, until all are; none where that fails. `Err` where memory was refused.
pub(crate) fn mended_point(
    alloc: Global,
    guess: &Guess,
    given: &Given,
) -> Result<Option<Vec<Frac>>, AllocError> {
    let mut values = Vec::new(alloc);
    if !put_values(guess, given, true, &mut values)? {
        return Ok(None);
    }
    for _ in 0..MOST_LOOKS {
        match mend_rows(given, values.as_mut_slice()) {
            Some(true) => return Ok(Some(values)),
            Some(false) => (),
            None => return Ok(None),
        }
    }
    Ok(None)
}

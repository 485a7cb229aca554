//! Rows without the columns whose sides are equal.
ghost use Rattle.std.specs.Prelude.{◌≡◌, ◌++◌, length, IfOk, IfSome, ⊤};
ghost use Rattle.std.specs.Bool.{MatchBool};
ghost use Rattle.cip_rational.specs.Rational.{zeroℚ};
ghost use Rattle.cip_problem.specs.Activity.{StandsBelow};
ghost use Rattle.cip_search.specs.RowSteps.{side_less};
ghost use Rattle.cip_presolve.specs.RowReading.{only_value, fixed_from, free_terms, IsLeftRow};

use cip_lin::{Bounds, Frac, Row, RowFault, Sides, Term};
use std::alloc::{AllocError, Global};

/// The one value between sides that are equal.
pub fn only_value(sides: Sides) -> Option<Frac>
    ensures { result ≡ only_value sides }
{
    if sides.is_fixed() { sides.low } else { None }
}

/// What the columns with equal sides come to in a row, where that is in range.
fn fixed_sum(terms: &[Term], bounds: &Bounds) -> Option<Frac>
    requires { StandsBelow (length bounds.now) terms.now }
    ensures { IfSome result (λ sum. sum ≡ fixed_from zeroℚ terms.now bounds.now) }
{
    let mut sum = Frac::zero();
    for term in terms {
        let Some(value) = only_value(bounds.sides(term.col)) else {
            continue;
        };
        if !sum.add_product(&term.coef, &value) {
            return None;
        }
    }
    Some(sum)
}

/// A side less a number: `None` where that isn't in range, and `Some(None)` where the side is open.
pub fn less(side: Option<Frac>, shift: Frac) -> Option<Option<Frac>>
    ensures { IfSome result (λ found. found ≡ side_less side shift) }
{
    match side {
        None => Some(None),
        Some(side) => match side.sub(shift) {
            Ok(rest) => Some(Some(rest)),
            Err(_) => None,
        },
    }
}

/// Puts the terms whose columns have no value at the end of a row: whether they could all stand there.
fn append_free(row: &mut Row, terms: &[Term], bounds: &Bounds) -> Result<bool, AllocError>
    requires { StandsBelow (length bounds.now) terms.now }
    ensures { IfOk result (λ whole. MatchBool whole
        (row.new ≡ record row.old { terms = row.old.terms ++ free_terms terms.now bounds.now }) ⊤) }
{
    for term in terms {
        if only_value(bounds.sides(term.col)).is_some() {
            continue;
        }
        match row.append(*term) {
            Ok(()) => {}
            Err(RowFault::NoMemory) => return Err(AllocError),
            Err(_) => return Ok(false),
        }
    }
    Ok(true)
}

/// A row without the columns whose sides are equal, each side less what these columns come to. `None` where a number of
/// it isn't in range; `Err` where a growth was refused.
pub fn without_fixed(alloc: Global, row: &Row, bounds: &Bounds) -> Result<Option<Row>, AllocError>
    requires { StandsBelow (length bounds.now) row.now.terms }
    ensures { IfOk result (λ found. IfSome found (λ new. IsLeftRow bounds.now row.now new)) }
{
    let Some(shift) = fixed_sum(row.terms(), bounds) else {
        return Ok(None);
    };
    let Some(low) = less(row.low(), shift) else {
        return Ok(None);
    };
    let Some(high) = less(row.high(), shift) else {
        return Ok(None);
    };
    let mut left = Row::empty(alloc, low, high);
    let Ok(whole) = append_free(&mut left, row.terms(), bounds) else {
        drop(left);
        return Err(AllocError);
    };
    if whole {
        return Ok(Some(left));
    }
    drop(left);
    Ok(None)
}

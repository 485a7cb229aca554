//! Coefficients of columns in rows, and how far columns may go on.
use cip_frac::Frac;
use cip_lin::{Row, Sides};

/// The coefficient of a column in a row, where it has one.
pub(crate) fn coefficient(row: &Row, col: u32) -> Option<Frac> {
    let terms = row.terms();
    let place = terms.partition_point(|term| term.col < col);
    match terms.get(place) {
        Some(term) if term.col == col => Some(term.coef),
        _ => None,
    }
}

/// How far a value between two sides may go on, up or down; none where it may go without end, or that leaves the range.
pub(crate) fn room(sides: Sides, value: Frac, is_up: bool) -> Option<Frac> {
    let room = if is_up {
        sides.high?.sub(value)
    } else {
        value.sub(sides.low?)
    };
    room.ok()
}

/// The sides of a row.
pub(crate) fn sides_of(row: &Row) -> Sides {
    Sides {
        low: row.low(),
        high: row.high(),
    }
}

/// How far a column with a coefficient may go on in a row that comes to this; none where it may go without end, or
/// that leaves the range.
pub(crate) fn reach(row: &Row, activity: Frac, coef: Frac, is_up: bool) -> Option<Frac> {
    if coef.is_zero() {
        return None;
    }
    match room(sides_of(row), activity, coef.is_positive() == is_up)?.div(coef) {
        Ok(quotient) => Some(quotient.abs()),
        Err(_) => None,
    }
}

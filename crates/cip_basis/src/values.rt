//! The point of a basis.
use crate::given::number_of;
use crate::placement::Placement;
use crate::{Given, Guess, Standing};
use cip_frac::Frac;
use cip_lin::{Row, Sides};
use std::alloc::AllocError;

/// A value, brought between sides.
pub(crate) fn brought_between(sides: Sides, value: Frac) -> Frac {
    if let Some(low) = sides.low {
        if value < low {
            return low;
        }
    }
    match sides.high {
        Some(high) if value > high => high,
        _ => value,
    }
}

/// The value of a variable where it stands; 0 of a basic one, none where the side isn't there.
fn standing_value(standing: Standing, sides: Sides) -> Option<Frac> {
    match standing {
        Standing::Low => sides.low,
        Standing::High => sides.high,
        Standing::Zero | Standing::Basic => Some(Frac::zero()),
    }
}

/// Where a column stands by a guess: at a side, and if it is basic at 0, or near its value, which is rounded; none
/// where that isn't there.
fn value_by(guess: &Guess, given: &Given, column: usize, near: bool) -> Option<Frac> {
    let sides = given.sides(column);
    let number = number_of(column);
    let standing = guess.standing(number);
    if near && standing == Standing::Basic {
        return Some(brought_between(sides, guess.value(number)?));
    }
    standing_value(standing, sides)
}

/// The values of all columns by a guess, those of basic ones 0, or near what they are; whether all are there.
pub(crate) fn put_values(
    guess: &Guess,
    given: &Given,
    near: bool,
    point: &mut Vec<Frac>,
) -> Result<bool, AllocError> {
    point.clear();
    for column in 0..given.columns() {
        let Some(value) = value_by(guess, given, column, near) else {
            return Ok(false);
        };
        point.push(value)?;
    }
    Ok(true)
}

/// The sum of a row at values, where one that isn't there counts as 0; none where the sum is out of range.
pub(crate) fn sum_at(row: &Row, point: &[Frac]) -> Option<Frac> {
    let mut sum = Frac::zero();
    for term in row.terms() {
        if let Some(value) = point.get(term.col as usize) {
            if !value.is_zero() && !sum.add_product(&term.coef, value) {
                return None;
            }
        }
    }
    Some(sum)
}

/// A number times a whole one; none where that is out of range.
pub(crate) fn scaled(value: Frac, scale: u64) -> Option<Frac> {
    if scale == 1 {
        return Some(value);
    }
    match Frac::whole(i128::from(scale)) {
        Ok(factor) => value.mul(factor).ok(),
        Err(_) => None,
    }
}

/// What the side at which a loose row stands leaves for the basic columns, times a number; none where it isn't there.
fn right_of(
    guess: &Guess,
    given: &Given,
    number: usize,
    point: &[Frac],
    scale: u64,
) -> Option<Frac> {
    let variable = given.columns().wrapping_add(number);
    let sum = sum_at(given.row(number)?, point)?;
    let standing = guess.standing(number_of(variable));
    let side = standing_value(standing, given.sides(variable))?;
    match side.sub(sum) {
        Ok(left) => scaled(left, scale),
        Err(_) => None,
    }
}

/// The right sides of the loose rows; whether all are there.
pub(crate) fn put_right_sides(
    guess: &Guess,
    given: &Given,
    placement: &Placement,
    scales: &[u64],
    point: &[Frac],
    out: &mut Vec<Frac>,
) -> Result<bool, AllocError> {
    out.clear();
    for (place, number) in placement.rows.iter().enumerate() {
        let Some(scale) = scales.get(place) else {
            return Ok(true);
        };
        match right_of(guess, given, *number as usize, point, *scale) {
            Some(value) => out.push(value)?,
            None => return Ok(false),
        }
    }
    Ok(true)
}

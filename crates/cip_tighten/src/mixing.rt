//! Mixed rounding: a row in ways from sides, divided by a number. With f what the right side leaves, a whole column's
//! coefficient goes down to a whole number, and up again by what it left above f, over 1 - f; a continuous column's
//! stays where it is below 0, over 1 - f, and is 0 else; the right side goes down.
//!
//! All is told times the common denominator, so that it stays whole.
use crate::candidates::{broken_by, measure_of};
use crate::numbers::kept;
use crate::shifts::{Shift, Shifted};
use crate::stops::Stop;
use crate::sums::Terms;

// The greatest denominator of a right side.
const MOST_UNDER: i128 = 1 << 20;

/// A row's right side divided: over the denominator of the right side times the divisor, what it leaves, and what is
/// left to the next whole number.
#[derive(Clone, Copy)]
pub(crate) struct Division {
    /// What the row is divided by, above 0.
    pub(crate) by: i64,
    /// The denominator of the right side.
    pub(crate) under: i128,
    /// The whole number below the divided right side.
    pub(crate) floor: i128,
    /// What it leaves above that.
    pub(crate) part: i128,
    /// What is left to the next one.
    pub(crate) rest: i128,
}

impl Division {
    /// What a whole column's coefficient leaves, over the same denominator.
    pub(crate) fn part_of(&self, shift: Shift) -> i128 {
        let left = shift.coef.checked_rem_euclid(self.by).unwrap_or(0);
        i128::from(left).wrapping_mul(self.under)
    }

    /// The whole number that a whole column's coefficient goes down to.
    pub(crate) fn floor_of(&self, shift: Shift) -> i128 {
        i128::from(shift.coef.checked_div_euclid(self.by).unwrap_or(0))
    }

    /// The coefficient of a way in the mixed rounding.
    pub(crate) fn coefficient(&self, shift: Shift) -> Option<i64> {
        if !shift.is_whole {
            return kept(i128::from(shift.coef.min(0)).wrapping_mul(self.under));
        }
        let part = self.part_of(shift);
        if shift.side.is_none() && part != 0 {
            return None;
        }
        let down = self.floor_of(shift).wrapping_mul(self.rest);
        kept(down.wrapping_add(part.wrapping_sub(self.part).max(0)))
    }

    /// By how much the last point breaks the mixed rounding, roughly; 0 where that leaves the range, or a way has no
    /// coefficient.
    pub(crate) fn broken(&self, items: &[Shift]) -> i128 {
        let mut sum = 0i128;
        for shift in items {
            let Some(number) = self.coefficient(*shift) else {
                return 0;
            };
            let way = i128::from(number).wrapping_mul(i128::from(shift.way));
            sum = sum.wrapping_add(way);
        }
        match self.floor.checked_mul(self.rest) {
            Some(right) => broken_by(sum, right),
            None => 0,
        }
    }
}

/// The coefficients of the mixed rounding, by column.
pub(crate) fn write_terms(
    division: Division,
    items: &[Shift],
    terms: &mut Terms,
) -> Result<(), Stop> {
    terms.clear();
    for shift in items {
        let Some(number) = division.coefficient(*shift) else {
            return Err(Stop::GaveUp);
        };
        if number != 0 {
            terms.push((shift.col, shift.column_coefficient(number)))?;
        }
    }
    Ok(())
}

/// The mixed rounding of a row that is divided by a number above 0, which leaves something of its right side, and its
/// score, where it has one.
fn score_by(shifted: &Shifted, by: i64, terms: &mut Terms) -> Result<(Division, u128), Stop> {
    let (over, under) = (shifted.right.numerator(), shifted.right.denominator());
    if by <= 0 || under > MOST_UNDER {
        return Err(Stop::GaveUp);
    }
    let whole = under.wrapping_mul(i128::from(by));
    let part = over.checked_rem_euclid(whole).unwrap_or(0);
    if part == 0 {
        return Err(Stop::GaveUp);
    }
    let division = Division {
        by,
        under,
        floor: over.checked_div_euclid(whole).unwrap_or(0),
        part,
        rest: whole.wrapping_sub(part),
    };
    let items = shifted.items.as_slice();
    let broken = division.broken(items);
    if broken <= 0 {
        return Err(Stop::GaveUp);
    }
    write_terms(division, items, terms)?;
    match measure_of(terms, broken) {
        Some(size) => Ok((division, size.score)),
        None => Err(Stop::GaveUp),
    }
}

/// The best mixed rounding of a row that is divided by one of these numbers, or by the best of them times 2, 4 or 8.
pub(crate) fn best_division(
    shifted: &Shifted,
    divisors: &[i64],
    terms: &mut Terms,
) -> Result<Division, Stop> {
    let mut best = None;
    let mut most = 0u128;
    let mut doubled = 0i64;
    for place in 0..divisors.len().saturating_add(3) {
        let by = match divisors.get(place) {
            Some(by) => *by,
            None => doubled.saturating_mul(2),
        };
        let is_better = match score_by(shifted, by, terms) {
            Ok((division, score)) if score > most => {
                best = Some(division);
                most = score;
                true
            }
            Err(Stop::NoMemory) => return Err(Stop::NoMemory),
            _ => false,
        };
        if is_better || place >= divisors.len() {
            doubled = by;
        }
    }
    match best {
        Some(division) => Ok(division),
        None => Err(Stop::GaveUp),
    }
}

/// Lists the numbers that a row is tried with: 1, and the sizes of the coefficients of its whole columns that lie
/// between their sides, at most 32 in all.
pub(crate) fn list_divisors(items: &[Shift], divisors: &mut Vec<i64>) -> Result<(), Stop> {
    divisors.clear();
    divisors.push(1)?;
    for shift in items {
        if divisors.len() >= 32 {
            break;
        }
        let size = shift.coef.saturating_abs();
        if shift.is_whole && shift.is_between() && !divisors.contains(&size) {
            divisors.push(size)?;
        }
    }
    Ok(())
}

//! Multipliers of rows, mended until each rest of a column may lie on a side of it.
use crate::given::number_of;
use crate::lists::item_at;
use crate::rows::push_number;
use crate::{Given, rounded_outward};
use cip_frac::Frac;
use cip_lin::{Row, Sides};
use std::alloc::{AllocError, Global};

// How often a column is looked at, in the mean.
const MOST_LOOKS: usize = 16;

// The most terms that are looked at.
const MOST_WORK: usize = 1 << 22;

/// Multipliers of the rows, and for each column what its cost exceeds the sum of its coefficients times these by: its
/// rest, which takes the column's low side where it is above 0, and the high one where it is below.
#[derive(Drop)]
pub(crate) struct Mending {
    pub(crate) multipliers: Vec<Frac>,
    rests: Vec<Frac>,
    spoiled: Vec<u32>,
    work: usize,
}

/// Whether the side that the rest of a column takes isn't there.
fn is_spoiled(given: &Given, column: usize, rest: Frac) -> bool {
    let sides = given.sides(column);
    if rest.is_positive() {
        sides.low.is_none()
    } else {
        rest.is_negative() && sides.high.is_none()
    }
}

/// Whether the side that a row with this multiplier takes is there.
pub(crate) fn has_side(row: &Row, multiplier: Frac) -> bool {
    if multiplier.is_positive() {
        row.low().is_some()
    } else {
        multiplier.is_zero() || row.high().is_some()
    }
}

/// Takes a multiple of a row off the rests; whether all stay in range.
fn take_off(rests: &mut [Frac], row: &Row, multiplier: Frac) -> bool {
    let opposite = multiplier.neg();
    for term in row.terms() {
        if let Some(rest) = rests.get_mut(term.col as usize) {
            if !rest.add_product(&opposite, &term.coef) {
                return false;
            }
        }
    }
    true
}

/// How many columns are spoiled once a multiple of a row is taken off; none where a rest leaves the range.
fn count_spoiled(given: &Given, rests: &[Frac], row: &Row, multiplier: Frac) -> Option<usize> {
    let opposite = multiplier.neg();
    let mut count = 0usize;
    for term in row.terms() {
        let column = term.col as usize;
        let mut left = item_at(rests, column, Frac::zero());
        if !left.add_product(&opposite, &term.coef) {
            return None;
        }
        if is_spoiled(given, column, left) {
            count = count.wrapping_add(1);
        }
    }
    Some(count)
}

/// The coefficient of a row on a column; 0 where it has none.
fn coefficient_at(row: &Row, column: u32) -> Frac {
    let terms = row.terms();
    let (mut front, mut back) = (0usize, terms.len());
    for _ in 0..usize::BITS {
        if front >= back {
            break;
        }
        let middle = front.wrapping_add(back) / 2;
        let Some(term) = terms.get(middle) else {
            break;
        };
        if term.col == column {
            return term.coef;
        }
        if term.col < column {
            front = middle.wrapping_add(1);
        } else {
            back = middle;
        }
    }
    Frac::zero()
}

/// By how much the multiplier of a row with this coefficient grows to take a rest of a column with these sides: rounded
/// away from 0, but not where both are open, since no rest may be left there.
fn growth(rest: Frac, coef: Frac, sides: Sides) -> Option<Frac> {
    if coef.is_zero() {
        return None;
    }
    let Ok(by) = rest.mul(coef.reciprocal()) else {
        return None;
    };
    if sides.low.is_none() && sides.high.is_none() {
        Some(by)
    } else {
        rounded_outward(by)
    }
}

/// Lists the columns of a row whose rests have no side.
fn list_spoiled_of(
    given: &Given,
    row: &Row,
    rests: &[Frac],
    spoiled: &mut Vec<u32>,
) -> Result<(), AllocError> {
    for term in row.terms() {
        let column = term.col as usize;
        if is_spoiled(given, column, item_at(rests, column, Frac::zero())) {
            push_number(spoiled, term.col)?;
        }
    }
    Ok(())
}

impl Mending {
    /// Multipliers to be mended, and the rests where all are 0: a list of costs.
    pub(crate) fn new(alloc: Global, multipliers: Vec<Frac>, costs: Vec<Frac>) -> Mending {
        Mending {
            multipliers,
            rests: costs,
            spoiled: Vec::new(alloc),
            work: MOST_WORK,
        }
    }

    /// Takes the rows off the rests; whether all stay in range.
    fn take_off_rows(&mut self, given: &Given) -> bool {
        for (number, multiplier) in self.multipliers.iter().enumerate() {
            if multiplier.is_zero() {
                continue;
            }
            if let Some(row) = given.row(number) {
                if !take_off(self.rests.as_mut_slice(), row, *multiplier) {
                    return false;
                }
            }
        }
        true
    }

    /// Lists the columns whose rests have no side.
    fn list_spoiled(&mut self, given: &Given) -> Result<(), AllocError> {
        for (column, rest) in self.rests.iter().enumerate() {
            if is_spoiled(given, column, *rest) {
                push_number(&mut self.spoiled, number_of(column))?;
            }
        }
        Ok(())
    }

    /// By how much the multiplier of a row would grow to take the rest of a column, and how many columns that spoils;
    /// none where it can't.
    fn tried(&self, given: &Given, row: &Row, number: usize, column: u32) -> Option<(Frac, usize)> {
        let sides = given.sides(column as usize);
        let rest = item_at(self.rests.as_slice(), column as usize, Frac::zero());
        let by = growth(rest, coefficient_at(row, column), sides)?;
        let before = self.multipliers.get(number)?;
        let Ok(after) = before.add(by) else {
            return None;
        };
        if !has_side(row, after) {
            return None;
        }
        let count = count_spoiled(given, self.rests.as_slice(), row, by)?;
        Some((by, count))
    }

    /// The row that takes the rest of a column and spoils the fewest columns, with by how much its multiplier grows.
    fn best_row(&mut self, given: &Given, column: u32) -> Option<(usize, Frac)> {
        let mut best = None;
        let mut fewest = usize::MAX;
        for number in 0..given.rows() {
            let Some(row) = given.row(number) else {
                continue;
            };
            let Some((by, count)) = self.tried(given, row, number, column) else {
                continue;
            };
            self.work = self.work.saturating_sub(row.terms().len());
            if count < fewest {
                fewest = count;
                best = Some((number, by));
            }
        }
        best
    }

    /// The multiplier of a row grows; whether all stays in range.
    fn grow(&mut self, given: &Given, number: usize, by: Frac) -> Result<bool, AllocError> {
        let Some(row) = given.row(number) else {
            return Ok(false);
        };
        if let Some(multiplier) = self.multipliers.get_mut(number) {
            if !multiplier.add_assign(by) {
                return Ok(false);
            }
        }
        if !take_off(self.rests.as_mut_slice(), row, by) {
            return Ok(false);
        }
        list_spoiled_of(given, row, self.rests.as_slice(), &mut self.spoiled)?;
        Ok(true)
    }

    /// Changes multipliers until each rest has its side; whether that could be done with 2^22 terms and 16 columns for
    /// each column looked at. `Err` where memory was refused.
    pub(crate) fn mend(&mut self, given: &Given) -> Result<bool, AllocError> {
        if !self.take_off_rows(given) {
            return Ok(false);
        }
        self.list_spoiled(given)?;
        for _ in 0..given.columns().saturating_mul(MOST_LOOKS) {
            let Some(column) = self.spoiled.pop() else {
                return Ok(true);
            };
            let rest = item_at(self.rests.as_slice(), column as usize, Frac::zero());
            if !is_spoiled(given, column as usize, rest) {
                continue;
            }
            let Some((number, by)) = self.best_row(given, column) else {
                return Ok(false);
            };
            if self.work == 0 || !self.grow(given, number, by)? {
                return Ok(false);
            }
        }
        Ok(self.spoiled.is_empty())
    }
}

//! Square systems of linear equations over whole numbers, solved exactly.
use crate::elimination::Elimination;
use crate::fractions::{Precision, fraction_of};
use crate::given::number_of;
use crate::lists::item_at;
use crate::residues::{PRIME, residue};
use crate::rows::ready_lists;
use cip_frac::{Frac, short_gcd};
use std::alloc::{AllocError, Global};

/// How long the parts of a solution may be.
#[derive(Clone, Copy)]
pub enum Length {
    /// Up to 55 bits.
    Short,
    /// Up to 127 bits.
    Long,
}

/// Which system of a matrix is meant.
#[derive(Clone, Copy)]
pub enum Direction {
    /// Values of the columns, for a right side of each row.
    Rows,
    /// Multipliers of the rows, for a cost of each column.
    Columns,
}

/// A square matrix of whole numbers, eliminated once modulo the prime 2^61 - 1. Solutions are lifted digit by digit to
/// that base, so that nothing overflows where the solution fits. What is found may be wrong; it wants a test.
#[derive(Drop)]
pub struct System {
    size: usize,
    matrix: Vec<Vec<(u32, i64)>>,
    elimination: Elimination,
    rests: Vec<i128>,
    right: Vec<u64>,
    values: Vec<u64>,
    digits: Vec<u64>,
}

/// The least common multiple of a number and the denominator of a fraction, where it has at most 63 bits.
pub(crate) fn common_multiple(number: u64, fraction: Frac) -> Option<u64> {
    if fraction.is_whole() {
        return Some(number);
    }
    let under = u64::try_from(fraction.denominator()).ok()?;
    let part = under.checked_div(short_gcd(number, under))?;
    let common = number.checked_mul(part)?;
    if common < 1 << 63 { Some(common) } else { None }
}

/// The least common denominator of fractions, where it has at most 63 bits.
pub fn common_denominator(numbers: &[Frac]) -> Option<u64> {
    let mut common = 1;
    for number in numbers {
        common = common_multiple(common, *number)?;
    }
    Some(common)
}

/// A fraction times a number that its denominator divides.
pub fn times_whole(number: Frac, common: u64) -> Option<i128> {
    if common == 1 {
        return Some(number.numerator());
    }
    let part = i128::from(common).checked_div(number.denominator())?;
    number.numerator().checked_mul(part)
}

/// Takes a product off a rest.
#[inline(always)]
fn take_off(rests: &mut [i128], place: usize, number: i64, digit: u64) {
    if let Some(rest) = rests.get_mut(place) {
        *rest = rest.wrapping_sub(i128::from(number).wrapping_mul(i128::from(digit)));
    }
}

/// Takes the matrix times digits off the rests.
fn take_row_off(
    numbers: &[(u32, i64)],
    row: usize,
    digits: &[u64],
    direction: Direction,
    rests: &mut [i128],
) {
    for item in numbers {
        let column = item.0 as usize;
        match direction {
            Direction::Rows => take_off(rests, row, item.1, item_at(digits, column, 0)),
            Direction::Columns => take_off(rests, column, item.1, item_at(digits, row, 0)),
        }
    }
}

/// Lists right sides times a common denominator; whether they fit.
fn list_rests(right: &[Frac], common: u64, rests: &mut Vec<i128>) -> Result<bool, AllocError> {
    rests.clear();
    for number in right {
        let Some(rest) = times_whole(*number, common) else {
            return Ok(false);
        };
        rests.push(rest)?;
    }
    Ok(true)
}

impl System {
    /// No system.
    pub fn new(alloc: Global) -> System {
        System {
            size: 0,
            matrix: Vec::new(alloc),
            elimination: Elimination::new(alloc),
            rests: Vec::new(alloc),
            right: Vec::new(alloc),
            values: Vec::new(alloc),
            digits: Vec::new(alloc),
        }
    }

    /// Begins a matrix of so many rows and columns, all 0.
    pub fn begin(&mut self, alloc: Global, size: usize) -> Result<(), AllocError> {
        self.size = size;
        ready_lists(alloc, &mut self.matrix, size)
    }

    /// Puts a number behind the others of a row, in which columns rise.
    pub fn put(&mut self, row: usize, column: usize, number: i64) -> Result<(), AllocError> {
        if let Some(numbers) = self.matrix.get_mut(row) {
            numbers.push((number_of(column), number))?;
        }
        Ok(())
    }

    /// Eliminates the matrix; whether it is regular modulo the prime.
    pub fn eliminate(&mut self, alloc: Global) -> Result<bool, AllocError> {
        self.elimination
            .eliminate(alloc, self.matrix.as_slice(), self.size)
    }

    /// Lists the rests modulo the prime, and has a value 0 of each unknown.
    fn reduce_rests(&mut self) -> Result<(), AllocError> {
        self.right.clear();
        for rest in &self.rests {
            self.right.push(residue(*rest))?;
        }
        self.values.clear();
        self.values.resize(self.size, 0)
    }

    /// Takes the matrix times the last digits off the rests.
    fn lower_rests(&mut self, direction: Direction) {
        let values = self.values.as_slice();
        for row in 0..self.size {
            if let Some(numbers) = self.matrix.get(row) {
                let rests = self.rests.as_mut_slice();
                take_row_off(numbers.as_slice(), row, values, direction, rests);
            }
        }
    }

    /// Lifts one more digit of each unknown.
    fn lift(&mut self, direction: Direction) -> Result<(), AllocError> {
        self.reduce_rests()?;
        let right = self.right.as_mut_slice();
        let values = self.values.as_mut_slice();
        match direction {
            Direction::Rows => self.elimination.solve(right, values),
            Direction::Columns => self.elimination.solve_turned(right, values),
        }
        self.lower_rests(direction);
        for rest in self.rests.iter_mut() {
            *rest /= PRIME as i128;
        }
        self.digits.extend_from_slice(self.values.as_slice())
    }

    /// The digits of one unknown, so many.
    fn digits_at(&self, unknown: usize, count: usize) -> [u64; 5] {
        let mut out = [0; 5];
        for place in 0..5usize {
            if place < count {
                let at = place.wrapping_mul(self.size).wrapping_add(unknown);
                out[place] = item_at(self.digits.as_slice(), at, 0);
            }
        }
        out
    }

    /// The fractions that the digits stand for, over a common denominator; whether there are such.
    fn read_off(
        &self,
        precision: Precision,
        common: u64,
        out: &mut Vec<Frac>,
    ) -> Result<bool, AllocError> {
        out.clear();
        let Ok(scale) = Frac::new(1, i128::from(common)) else {
            return Ok(false);
        };
        let mut known = 1u128;
        for unknown in 0..self.size {
            let digits = self.digits_at(unknown, precision.count);
            let Some(value) = fraction_of(digits, precision, &mut known) else {
                return Ok(false);
            };
            let Ok(scaled) = value.mul(scale) else {
                return Ok(false);
            };
            out.push(scaled)?;
        }
        Ok(true)
    }

    /// Solves the system for right sides of the rows, or for costs of the columns, with fractions whose parts may be so
    /// long; whether there are such. `Err` where memory was refused.
    pub fn solve(
        &mut self,
        right: &[Frac],
        direction: Direction,
        length: Length,
        out: &mut Vec<Frac>,
    ) -> Result<bool, AllocError> {
        let Some(common) = common_denominator(right) else {
            return Ok(false);
        };
        if !list_rests(right, common, &mut self.rests)? {
            return Ok(false);
        }
        let precision = match length {
            Length::Short => Precision { count: 2, bits: 55 },
            Length::Long => Precision {
                count: 5,
                bits: 127,
            },
        };
        self.digits.clear();
        for _ in 0..precision.count {
            self.lift(direction)?;
        }
        self.read_off(precision, common, out)
    }
}

//! Rows divided by a number and rounded: all coefficients of ways go down to whole numbers, and then the right side
//! does.
use crate::candidates::{Candidate, Measure, broken_by, measure_of};
use crate::combos::{empty_combo, push_row, push_way};
use crate::numbers::kept;
use crate::shifts::Shifted;
use crate::stops::Stop;
use crate::sums::{Sum, Terms};
use cip_lin::Combo;
use cip_plugin::Cut;
use std::alloc::Global;

/// Writes the coefficients of the row divided and rounded, without their common divisor; answers what they measured.
fn write_cut(shifted: &Shifted, by: i64, terms: &mut Terms) -> Result<Measure, Stop> {
    let mut sum = 0i128;
    for shift in &shifted.items {
        if !shift.is_whole && shift.coef < 0 {
            return Err(Stop::GaveUp);
        }
        let coef = if shift.is_whole { shift.coef } else { 0 };
        let Some(number) = coef.checked_div_euclid(by) else {
            return Err(Stop::GaveUp);
        };
        let way = i128::from(number).wrapping_mul(i128::from(shift.way));
        sum = sum.wrapping_add(way);
        if number != 0 {
            terms.push((shift.col, shift.column_coefficient(number)))?;
        }
    }
    let under = shifted.right.denominator().checked_mul(i128::from(by));
    let right = shifted.right.numerator();
    match right.checked_div_euclid(under.unwrap_or(0)) {
        Some(floor) => lower(terms, broken_by(sum, floor)),
        None => Err(Stop::GaveUp),
    }
}

/// Adds what rounding took off the ways to a combination, divided by a number.
fn push_ways(combo: &mut Combo, shifted: &Shifted, by: i64) -> Result<(), Stop> {
    for shift in &shifted.items {
        let rest = if shift.is_whole {
            shift.coef.checked_rem_euclid(by).unwrap_or(0)
        } else {
            shift.coef
        };
        push_way(combo, *shift, i128::from(rest), i128::from(by))?;
    }
    Ok(())
}

/// Adds the rows of a sum, and what rounding took off the ways, to a combination, divided by a number.
fn push_all(combo: &mut Combo, sum: &Sum, shifted: &Shifted, by: i64) -> Result<(), Stop> {
    for used in &sum.used {
        let Some(factor) = used.factor() else {
            return Err(Stop::GaveUp);
        };
        let over = i128::from(factor.wrapping_neg());
        push_row(combo, used.id, over, i128::from(by))?;
    }
    push_ways(combo, shifted, by)
}

/// The row divided by a number above 0 and rounded, as a cut of this node. `GaveUp` where the last point keeps it, a
/// way that isn't whole has a coefficient below 0, a coefficient has more than 20 bits, or a number leaves its range;
/// `NoMemory` where memory was refused.
pub fn rounded_cut(
    alloc: Global,
    sum: &Sum,
    shifted: &Shifted,
    by: i64,
) -> Result<Candidate, Stop> {
    let mut terms = Vec::new(alloc);
    let size = write_cut(shifted, by, &mut terms)?;
    let mut combo = empty_combo(alloc);
    push_all(&mut combo, sum, shifted, by)?;
    let cut = Cut {
        combo,
        round: true,
        local: true,
        split: None,
    };
    Ok(Candidate {
        terms,
        square: size.square,
        score: size.score,
        cut: Some(cut),
    })
}

/// Takes the common divisor out of the coefficients of a cut that the last point breaks by so much; answers what they
/// measured before. `GaveUp` where they have no measure, or their divisor is above 2^40.
pub fn lower(terms: &mut Terms, broken: i128) -> Result<Measure, Stop> {
    let Some(size) = measure_of(terms, broken) else {
        return Err(Stop::GaveUp);
    };
    let Some(by) = kept(i128::from(size.divisor)) else {
        return Err(Stop::GaveUp);
    };
    for term in terms.iter_mut() {
        term.1 = term.1.checked_div(by).unwrap_or(0);
    }
    Ok(size)
}

//! The split cut that proves a mixed rounding. Its form has each whole column's coefficient rounded down, or up where
//! it leaves more than the right side does. On the left the form is at most the right side rounded down: that, with
//! ways of at least 0, is the cut. On the right it is at least the next number: the row, with ways of at least 0, is
//! the cut.
use crate::candidates::{Candidate, Candidates, Measure};
use crate::combos::{empty_combo, push_row, push_way};
use crate::mixing::{Division, write_terms};
use crate::roundings::lower;
use crate::shifts::{Shift, Shifted};
use crate::stops::Stop;
use crate::sums::{Multiple, Sum, Terms, write_sum};
use crate::tight::row_of;
use cip_cert::{FormTerm, SplitCut};
use cip_frac::Frac;
use cip_lin::Combo;
use cip_plugin::{Cut, View};
use std::alloc::Global;
use std::mem;

/// Writes the form, and answers the number that it is at most on the left.
fn write_form(division: Division, items: &[Shift], form: &mut Vec<FormTerm>) -> Result<i128, Stop> {
    let mut number = division.floor;
    for shift in items {
        if !shift.is_whole {
            continue;
        }
        let mut coefficient = division.floor_of(*shift);
        if division.part_of(*shift) > division.part {
            coefficient = coefficient.wrapping_add(1);
        }
        if coefficient == 0 {
            continue;
        }
        let (col, coef) = if shift.is_turned {
            (shift.col, coefficient.wrapping_neg())
        } else {
            (shift.col, coefficient)
        };
        form.push(FormTerm { col, coef })?;
        if let Some(side) = shift.side {
            let behind = match coef.checked_mul(side.numerator()) {
                Some(product) => number.checked_add(product),
                None => None,
            };
            let Some(sum) = behind else {
                return Err(Stop::GaveUp);
            };
            number = sum;
        }
    }
    Ok(number)
}

/// Adds each way to a side: how often it is used on the right that it is at least 0, or where that is below 0, on the
/// left.
fn push_ways(
    division: Division,
    items: &[Shift],
    divisor: i128,
    left: &mut Combo,
    right: &mut Combo,
) -> Result<(), Stop> {
    let whole = division.under.wrapping_mul(i128::from(division.by));
    for shift in items {
        let part = division.part_of(*shift);
        let weight = if !shift.is_whole {
            i128::from(shift.coef).wrapping_mul(division.under)
        } else if part > division.part {
            part.wrapping_sub(whole)
        } else {
            part
        };
        let combo = if weight < 0 { &mut *left } else { &mut *right };
        push_way(combo, *shift, weight.wrapping_abs(), divisor)?;
    }
    Ok(())
}

/// The coefficients of the cut by column, those of the rows that don't fit their sides among them; answers what they
/// measured before the common divisor was taken out.
fn write_cut(
    view: &View<'_>,
    division: Division,
    sum: &Sum,
    items: &[Shift],
    terms: &mut Terms,
    spare: &mut Terms,
) -> Result<Measure, Stop> {
    write_terms(division, items, terms)?;
    let under = i64::try_from(division.under).unwrap_or(i64::MAX);
    for used in &sum.used {
        if used.fits() {
            continue;
        }
        let (Some(row), Some(times)) = (row_of(view, used.id), used.times.checked_mul(under)) else {
            return Err(Stop::GaveUp);
        };
        let multiple = Multiple {
            terms: row.terms(),
            common: used.common,
            times: times.wrapping_neg(),
        };
        write_sum(terms.as_slice(), 1, multiple, spare)?;
        mem::swap(terms, spare);
    }
    lower(terms, division.broken(items))
}

/// Adds the rows, each that fits its side on the right and another on the left, and the ways.
fn push_all(
    division: Division,
    sum: &Sum,
    items: &[Shift],
    divisor: i128,
    left: &mut Combo,
    right: &mut Combo,
) -> Result<(), Stop> {
    for used in &sum.used {
        let Some(factor) = used.factor() else {
            return Err(Stop::GaveUp);
        };
        let times = i128::from(factor).wrapping_mul(division.under);
        let fits = used.fits();
        let combo = if fits { &mut *right } else { &mut *left };
        let over = if fits { times.wrapping_neg() } else { times };
        push_row(combo, used.id, over, divisor)?;
    }
    push_ways(division, items, divisor, left, right)
}

/// The split cut of a mixed rounding.
fn split_of(
    alloc: Global,
    division: Division,
    sum: &Sum,
    items: &[Shift],
    size: Measure,
) -> Result<SplitCut, Stop> {
    let divisor = i128::from(size.divisor);
    let Ok(left_factor) = Frac::new(division.rest, divisor) else {
        return Err(Stop::GaveUp);
    };
    let Ok(right_factor) = Frac::new(division.part, divisor) else {
        return Err(Stop::GaveUp);
    };
    let mut form = Vec::new(alloc);
    let k = write_form(division, items, &mut form)?;
    let mut left = empty_combo(alloc);
    let mut right = empty_combo(alloc);
    push_all(division, sum, items, divisor, &mut left, &mut right)?;
    Ok(SplitCut {
        form,
        k,
        left,
        left_factor,
        right,
        right_factor,
    })
}

/// Keeps the cut of a mixed rounding.
pub(crate) fn keep_mixed(
    alloc: Global,
    view: &View<'_>,
    sum: &Sum,
    shifted: &Shifted,
    division: Division,
    candidates: &mut Candidates,
) -> Result<(), Stop> {
    let items = shifted.items.as_slice();
    let mut terms = Vec::new(alloc);
    let size = write_cut(view, division, sum, items, &mut terms, &mut Vec::new(alloc))?;
    let split = split_of(alloc, division, sum, items, size)?;
    candidates.push(Candidate {
        terms,
        square: size.square,
        score: size.score,
        cut: Some(Cut {
            combo: empty_combo(alloc),
            round: false,
            local: true,
            split: Some(split),
        }),
    })?;
    Ok(())
}

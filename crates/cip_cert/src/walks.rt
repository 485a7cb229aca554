//! Walks over the columns of a row of coefficients.
ghost use Rattle.std.specs.Prelude.{◌≡◌, ◌≤◌, length, Ok, IsErr};
ghost use Rattle.std.specs.Bool.{MatchBool};
ghost use Rattle.std.specs.Ordering.{nat_cmp};
ghost use Rattle.std.specs.List.Sorted.{IsSorted};
ghost use Rattle.cip_cert.specs.Touched.{Tells};
ghost use Rattle.cip_cert.specs.Checks.{chain, first_stop, rest_of, rest_added, own_rest_added, bound_from, rests_from};

use crate::faults::{CutFault, FaultPlace};
use crate::parts::sum_of;
use cip_frac::Frac;
use cip_lin::Sides;
use cip_node_rules::stops;

/// The first column whose coefficient doesn't let a row be rounded.
pub(crate) fn first_stop(whole: &[bool], entries: &[Frac], touched: &[u32]) -> Option<usize>
    requires sorted { IsSorted nat_cmp touched.now }
    requires tells { Tells entries.now touched.now }
    requires room { length whole.now ≤ length entries.now }
    ensures { result ≡ first_stop 0 whole.now entries.now }
{
    for column in touched {
        let column = *column as usize;
        if column >= whole.len() {
            continue;
        }
        if stops(whole[column], entries[column]) {
            return Some(column);
        }
    }
    None
}

/// A sum with the least product of a rest and a value of a column added.
fn add_rest(column: usize, sum: Frac, rest: Frac, sides: Sides) -> Result<Frac, CutFault>
    ensures { result ≡ rest_added column sum rest sides }
{
    let side = if rest.is_positive() {
        sides.low
    } else if rest.is_negative() {
        sides.high
    } else {
        return Ok(sum);
    };
    let place = FaultPlace::Column(column);
    match side {
        None => Err(CutFault::NoSide { place }),
        Some(side) => sum_of(place, sum, rest, side),
    }
}

/// A sum with the least rest of one column added: of its cost less its coefficient.
fn add_column(
    column: usize,
    sum: Frac,
    cost: Frac,
    coefficient: Frac,
    sides: Sides,
) -> Result<Frac, CutFault>
    ensures { result ≡ chain (rest_of column cost coefficient) (λ rest. rest_added column sum rest sides) }
{
    match cost.sub(coefficient) {
        Ok(rest) => add_rest(column, sum, rest, sides),
        Err(_) => Err(CutFault::Wide {
            place: FaultPlace::Column(column),
        }),
    }
}

/// Adds the least rest of one column in place: `true`, or `false` where there is none, with the sum as it was.
#[inline(always)]
fn step(column: usize, sum: &mut Frac, cost: Frac, coefficient: Frac, sides: &Sides) -> bool
    ensures { MatchBool result
        (chain (rest_of column cost coefficient) (λ rest. rest_added column sum.old rest sides.now) ≡ Ok sum.new)
        (IsErr (chain (rest_of column cost coefficient) (λ rest. rest_added column sum.old rest sides.now))
        × (sum.new ≡ sum.old)) }
{
    let Ok(rest) = cost.sub(coefficient) else {
        return false;
    };
    let side = if rest.is_positive() {
        sides.low
    } else if rest.is_negative() {
        sides.high
    } else {
        return true;
    };
    match side {
        None => false,
        Some(side) => sum.add_product(&rest, &side),
    }
}

/// A sum with the least rests of all columns added: of their costs less their coefficients.
pub(crate) fn bound(
    costs: &[Frac],
    entries: &[Frac],
    sides: &[Sides],
    start: Frac,
) -> Result<Frac, CutFault>
    requires costs { length costs.now ≡ length sides.now }
    requires room { length sides.now ≤ length entries.now }
    ensures { result ≡ bound_from 0 start costs.now entries.now sides.now }
{
    let mut sum = start;
    for at in 0..sides.len() {
        if !step(at, &mut sum, costs[at], entries[at], &sides[at]) {
            return add_column(at, sum, costs[at], entries[at], sides[at]);
        }
    }
    Ok(sum)
}

/// A sum with the least rest of one column added, where its cost is 0, or its coefficient if it is the one named.
fn add_own_rest(
    named: Option<u32>,
    column: usize,
    sum: Frac,
    coefficient: Frac,
    sides: Sides,
) -> Result<Frac, CutFault>
    ensures { result ≡ own_rest_added named column sum coefficient sides }
{
    if let Some(named) = named {
        if named as usize == column {
            return Ok(sum);
        }
    }
    add_rest(column, sum, coefficient.neg(), sides)
}

/// A sum with these least rests of all columns added, in time by the columns that were touched.
pub(crate) fn rests(
    named: Option<u32>,
    entries: &[Frac],
    touched: &[u32],
    sides: &[Sides],
    start: Frac,
) -> Result<Frac, CutFault>
    requires sorted { IsSorted nat_cmp touched.now }
    requires tells { Tells entries.now touched.now }
    requires room { length sides.now ≤ length entries.now }
    ensures { result ≡ rests_from named 0 start entries.now sides.now }
{
    let mut sum = start;
    let mut next = 0;
    for column in touched {
        let column = *column as usize;
        if column < next {
            continue;
        }
        if column >= sides.len() {
            continue;
        }
        match add_own_rest(named, column, sum, entries[column], sides[column]) {
            Ok(value) => sum = value,
            Err(fault) => return Err(fault),
        }
        next = column + 1;
    }
    Ok(sum)
}

//! What the checks have to answer, from the sum of a combination.
use crate::asked::Asked;
use crate::draws::fraction;
use crate::slow_sums::{Sum, plus};
use cip_cert::{CutFault, FaultPlace};
use cip_frac::Frac;
use cip_lin::{Side, Sides};

/// Whether a number is whole.
fn is_integer(number: Frac) -> bool {
    number.denominator() == 1
}

/// The greatest whole number that is at most a number.
fn down(number: Frac) -> Frac {
    fraction(number.floor(), 1)
}

/// The least whole number that is at least a number.
fn up(number: Frac) -> Frac {
    down(number.neg()).neg()
}

/// The first column that doesn't let the sum be rounded.
fn first_not_whole(asked: &Asked, coefficients: &[Frac]) -> Option<usize> {
    for column in 0..coefficients.len() {
        let may_stand = match asked.whole.as_slice().get(column) {
            Some(whole) => *whole && is_integer(coefficients[column]),
            None => false,
        };
        if !may_stand && coefficients[column] != Frac::zero() {
            return Some(column);
        }
    }
    None
}

/// What `derive` has to answer.
pub fn slow_row(asked: &Asked, sum: &Sum) -> Result<Frac, CutFault> {
    if let Some(fault) = sum.fault {
        return Err(fault);
    }
    if !asked.round {
        return Ok(sum.least);
    }
    match first_not_whole(asked, sum.coefficients.as_slice()) {
        Some(column) => Err(CutFault::NotWhole { column }),
        None => Ok(up(sum.least)),
    }
}

/// The side at which a rest is least.
fn least_side(sides: Sides, rest: Frac) -> Option<Frac> {
    if rest > Frac::zero() {
        sides.low
    } else {
        sides.high
    }
}

/// A sum with the least product of a rest and a column's value added.
fn with_rest(column: usize, sum: Frac, rest: Frac, sides: Sides) -> Result<Frac, CutFault> {
    if rest == Frac::zero() {
        return Ok(sum);
    }
    let place = FaultPlace::Column(column);
    match least_side(sides, rest) {
        None => Err(CutFault::NoSide { place }),
        Some(side) => match plus(sum, rest, side) {
            Some(more) => Ok(more),
            None => Err(CutFault::Wide { place }),
        },
    }
}

/// A sum with the least value of a column's cost less its coefficient added.
fn with_column(
    column: usize,
    sum: Frac,
    cost: Frac,
    coefficient: Frac,
    sides: Sides,
) -> Result<Frac, CutFault> {
    match cost.add(coefficient.neg()) {
        Ok(rest) => with_rest(column, sum, rest, sides),
        Err(_) => Err(CutFault::Wide {
            place: FaultPlace::Column(column),
        }),
    }
}

/// The cost of a column at which a bound is asked for.
fn cost_at(costs: &[Frac], column: usize) -> Frac {
    match costs.get(column) {
        Some(cost) => *cost,
        None => Frac::zero(),
    }
}

/// The right side with the least values of costs less coefficients added, over all columns.
fn slow_bound(asked: &Asked, sum: &Sum, costs: &[Frac]) -> Result<Frac, CutFault> {
    if let Some(fault) = sum.fault {
        return Err(fault);
    }
    let mut bound = sum.least;
    for column in 0..sum.coefficients.len() {
        let sides = match asked.bounds.as_slice().get(column) {
            Some(sides) => *sides,
            None => Sides::open(),
        };
        let coefficient = sum.coefficients[column];
        match with_column(column, bound, cost_at(costs, column), coefficient, sides) {
            Ok(more) => bound = more,
            Err(fault) => return Err(fault),
        }
    }
    Ok(bound)
}

/// What `lower_bound` has to answer.
pub fn slow_cost(asked: &Asked, sum: &Sum) -> Result<Frac, CutFault> {
    slow_bound(asked, sum, asked.costs.as_slice())
}

/// What `empties` has to answer.
pub fn slow_emptiness(asked: &Asked, sum: &Sum) -> Result<(), CutFault> {
    match slow_bound(asked, sum, &[]) {
        Ok(value) if value > Frac::zero() => Ok(()),
        Ok(value) => Err(CutFault::NotPositive { value }),
        Err(fault) => Err(fault),
    }
}

/// The side that is implied of the column that is asked for, if its coefficient has the sign for it.
fn implied(asked: &Asked, coefficient: Frac, bound: Frac) -> Result<Option<Frac>, CutFault> {
    let has_sign = match asked.side {
        Side::Low => coefficient > Frac::zero(),
        Side::High => coefficient < Frac::zero(),
    };
    if !has_sign {
        return Ok(None);
    }
    let inverse = fraction(coefficient.denominator(), coefficient.numerator());
    let Ok(side) = bound.mul(inverse) else {
        return Err(CutFault::Wide {
            place: FaultPlace::Column(asked.column as usize),
        });
    };
    let is_whole = match asked.whole.as_slice().get(asked.column as usize) {
        Some(whole) => *whole,
        None => false,
    };
    Ok(Some(match asked.side {
        _ if !is_whole => side,
        Side::Low => up(side),
        Side::High => down(side),
    }))
}

/// The costs whose one entry is the coefficient of the column that is asked for: the bound then leaves that column out.
fn own_cost(asked: &Asked, sum: &Sum, costs: &mut [Frac]) -> Frac {
    let column = asked.column as usize;
    for cost in costs.iter_mut() {
        *cost = Frac::zero();
    }
    match sum.coefficients.as_slice().get(column) {
        Some(coefficient) if column < costs.len() => {
            costs[column] = *coefficient;
            *coefficient
        }
        _ => Frac::zero(),
    }
}

/// What `reduction` has to answer; the costs are overwritten.
pub fn slow_side(asked: &Asked, sum: &Sum, costs: &mut [Frac]) -> Result<Frac, CutFault> {
    let coefficient = own_cost(asked, sum, costs);
    let bound = match slow_bound(asked, sum, costs) {
        Ok(bound) => bound,
        Err(fault) => return Err(fault),
    };
    let implied = match implied(asked, coefficient, bound) {
        Ok(implied) => implied,
        Err(fault) => return Err(fault),
    };
    let is_strong = match (implied, asked.side) {
        (None, _) => false,
        (Some(side), Side::Low) => side >= asked.value,
        (Some(side), Side::High) => side <= asked.value,
    };
    if is_strong {
        Ok(asked.value)
    } else {
        Err(CutFault::NotImplied { implied })
    }
}

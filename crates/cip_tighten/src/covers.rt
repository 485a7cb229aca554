//! Covers: columns of a row, each with two values, that can't all stand at the costlier one. The row, divided by the
//! greatest of their coefficients and rounded, says that one of them doesn't.
use crate::candidates::Candidates;
use crate::mixing::best_division;
use crate::numbers::UNIT;
use crate::roundings::rounded_cut;
use crate::shifts::{Aim, Shift, Shifted};
use crate::split_cuts::keep_mixed;
use crate::stops::Stop;
use crate::sums::{Sum, Terms};
use cip_plugin::View;
use std::alloc::Global;

// The most coefficients of a cover by which a row is divided.
const MOST_DIVISORS: usize = 8;

/// A column that may stand in a cover: by its key, then by its place.
#[derive(Clone, Copy, PartialEq, Eq, PartialOrd, Ord)]
struct Pick {
    key: i64,
    place: usize,
    coef: i64,
    way: i64,
}

/// What work on covers is done in.
#[derive(Drop)]
pub(crate) struct Covers {
    shifted: Shifted,
    picks: Vec<Pick>,
    cover: Vec<Pick>,
    kept: Vec<Pick>,
    divisors: Vec<i64>,
    terms: Terms,
}

/// In which order columns come into a cover.
#[derive(Clone, Copy)]
pub(crate) enum Order {
    /// What is left of the way for the coefficient, the least first.
    ByRate,
    /// The way, the longest first.
    ByWay,
}

/// Lists the columns that may stand in a cover, in an order.
fn list_picks(items: &[Shift], order: Order, picks: &mut Vec<Pick>) -> Result<(), Stop> {
    picks.clear();
    for (place, shift) in items.iter().enumerate() {
        if shift.is_unit {
            let left = UNIT.saturating_sub(shift.way);
            let rate = match order {
                Order::ByWay => Some(i128::from(left)),
                Order::ByRate => (i128::from(left) << 24).checked_div(i128::from(shift.coef)),
            };
            picks.push(Pick {
                key: i64::try_from(rate.unwrap_or(i128::MAX)).unwrap_or(i64::MAX),
                place,
                coef: shift.coef,
                way: shift.way,
            })?;
        }
    }
    picks.sort_unstable();
    Ok(())
}

/// Takes columns in their order until their coefficients come to more than the limit, and answers what they come to.
fn fill(picks: &[Pick], limit: i128, cover: &mut Vec<Pick>) -> Result<i128, Stop> {
    cover.clear();
    let mut sum = 0i128;
    for pick in picks {
        if sum > limit {
            break;
        }
        sum = sum.wrapping_add(i128::from(pick.coef));
        let mut taken = *pick;
        taken.key = pick.way;
        cover.push(taken)?;
    }
    if sum > limit {
        Ok(sum)
    } else {
        Err(Stop::GaveUp)
    }
}

/// Leaves out columns, those of short ways first, as long as the others come to more than the limit.
fn thin(cover: &mut Vec<Pick>, sum: i128, limit: i128, kept: &mut Vec<Pick>) -> Result<(), Stop> {
    cover.sort_unstable();
    kept.clear();
    let mut left = sum;
    for pick in cover.iter() {
        let rest = left.wrapping_sub(i128::from(pick.coef));
        if rest > limit {
            left = rest;
        } else {
            kept.push(*pick)?;
        }
    }
    Ok(())
}

/// Tells the ways of the cover's columns from their other sides, and lists their coefficients, the greatest first.
fn turn(kept: &[Pick], shifted: &mut Shifted, divisors: &mut Vec<i64>) -> Result<(), Stop> {
    divisors.clear();
    for pick in kept {
        shifted.flip(pick.place)?;
        divisors.push(pick.coef)?;
    }
    divisors.sort_unstable();
    divisors.reverse();
    divisors.dedup();
    divisors.truncate(MOST_DIVISORS);
    Ok(())
}

impl Covers {
    /// Nothing.
    pub(crate) fn new(alloc: Global) -> Covers {
        Covers {
            shifted: Shifted::new(alloc),
            picks: Vec::new(alloc),
            cover: Vec::new(alloc),
            kept: Vec::new(alloc),
            divisors: Vec::new(alloc),
            terms: Vec::new(alloc),
        }
    }

    /// Finds a cover in an order: its columns' coefficients come to more than the limit. Tells the row in the ways of
    /// these columns from their costlier values.
    fn find(&mut self, view: &View<'_>, sum: &Sum, order: Order) -> Result<(), Stop> {
        let point = view.point.unwrap_or(&[]);
        self.shifted
            .take(view, point, &sum.terms, sum.right, Aim::Positive)?;
        let limit = self.shifted.right.floor();
        if !self.shifted.is_fractional || limit < 0 {
            return Err(Stop::GaveUp);
        }
        list_picks(self.shifted.items.as_slice(), order, &mut self.picks)?;
        let come_to = fill(self.picks.as_slice(), limit, &mut self.cover)?;
        thin(&mut self.cover, come_to, limit, &mut self.kept)?;
        turn(self.kept.as_slice(), &mut self.shifted, &mut self.divisors)
    }

    /// Keeps the cuts of a cover of a row that is at most its right side, if one is found in this order: the row by the
    /// greatest of its coefficients and rounded, and the best mixed rounding by one of them, which leaves the columns
    /// outside of the cover more.
    pub(crate) fn keep_by(
        &mut self,
        alloc: Global,
        view: &View<'_>,
        sum: &Sum,
        order: Order,
        candidates: &mut Candidates,
    ) -> Result<(), Stop> {
        self.find(view, sum, order)?;
        let (shifted, divisors) = (&self.shifted, self.divisors.as_slice());
        if let Some(by) = divisors.first() {
            candidates.keep(rounded_cut(alloc, sum, shifted, *by))?;
        }
        let best = best_division(shifted, divisors, &mut self.terms)?;
        keep_mixed(alloc, view, sum, shifted, best, candidates)
    }
}

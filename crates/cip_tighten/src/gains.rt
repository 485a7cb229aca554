//! What rounds of cuts gained.
use crate::budgets::terms_of;
use crate::numbers::{UNIT, rough};
use cip_frac::Frac;
use cip_plugin::View;

// After so many rounds without much gain no more cuts are looked for.
const MOST_STALE: u32 = 4;

// The greatest denominator of a point behind which cuts are looked for, where costs aren't whole.
const MOST_UNDER: i128 = 1 << 64;

// The most coefficients of a small program.
const MOST_SMALL: usize = 16;

/// What rounds of cuts at the root gained.
#[derive(Clone, Copy)]
pub struct Gains {
    cost: Option<i64>,
    stale: u32,
}

/// What a point costs, roughly, over 2^24: the sum of what each column costs, which is rounded. None where that leaves
/// the range.
pub fn cost_of(costs: &[Frac], point: &[Frac]) -> Option<i64> {
    let mut sum = 0i128;
    for (column, value) in point.iter().enumerate() {
        if let Some(cost) = costs.get(column) {
            if !cost.is_zero() && !value.is_zero() {
                let product = cost.numerator().checked_mul(i128::from(rough(*value)));
                let quotient = product?.checked_div(cost.denominator()).unwrap_or(0);
                sum = sum.checked_add(quotient)?;
            }
        }
    }
    i64::try_from(sum).ok()
}

/// The most that the cutoff row lets a point cost; none before a cost is held.
pub fn most_cost(view: &View<'_>) -> Option<Frac> {
    match view.cutoff {
        Some(row) => row.high(),
        None => None,
    }
}

/// Whether a whole column has a value that isn't.
pub fn has_fraction(whole: &[bool], point: &[Frac]) -> bool {
    for (column, value) in point.iter().enumerate() {
        if !value.is_whole() && whole.get(column) == Some(&true) {
            return true;
        }
    }
    false
}

/// Whether a value of a point has a denominator above this. Each row more makes these longer, and where they leave the
/// range no linear program shows its optimum.
pub fn is_long(point: &[Frac], most: i128) -> bool {
    for value in point {
        if value.denominator() > most {
            return true;
        }
    }
    false
}

/// Whether costs are whole and stand on whole columns.
fn has_whole_costs(view: &View<'_>) -> bool {
    for (column, cost) in view.costs.iter().enumerate() {
        if !cost.is_zero() && !(cost.is_whole() && view.whole.get(column) == Some(&true)) {
            return false;
        }
    }
    true
}

impl Gains {
    /// No round yet.
    pub fn new() -> Gains {
        Gains {
            cost: None,
            stale: 0,
        }
    }

    /// Whether one more round may pay: at the root, with a point that is to be cut off, unless the program is dense,
    /// cuts may keep an optimum from being shown, or the last rounds gained little. Cuts may do so where it is shown
    /// now, a value of its point has a long denominator, and costs aren't whole, so that no bound rounded up is as
    /// good. A program is dense that isn't small, and has more than a third of its coefficients: cuts are as long as
    /// its rows then, and cost each later linear program more than they save.
    pub fn may_pay(&mut self, view: &View<'_>) -> bool {
        let Some(point) = view.point else {
            return false;
        };
        if view.node != 0 || self.stale >= MOST_STALE {
            return false;
        }
        let own = terms_of(view.own);
        let places = view.own.len().saturating_mul(view.costs.len());
        if (own > MOST_SMALL && own.saturating_mul(3) > places)
            || (view.combo.is_some() && is_long(point, MOST_UNDER) && !has_whole_costs(view))
            || !has_fraction(view.whole, point)
        {
            return false;
        }
        let cost = cost_of(view.costs, point);
        let has_gained = match (self.cost, cost) {
            (Some(before), Some(now)) => {
                let gain = i128::from(now).wrapping_sub(i128::from(before));
                let size = i128::from(before).wrapping_abs();
                gain.wrapping_mul(10_000) >= size.max(i128::from(UNIT))
            }
            (before, _) => before.is_none(),
        };
        self.stale = if has_gained {
            0
        } else {
            self.stale.saturating_add(1)
        };
        self.cost = cost;
        true
    }
}

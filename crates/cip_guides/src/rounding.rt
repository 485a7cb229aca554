//! The heuristic that rounds the last point.
ghost use Rattle.std.specs.Prelude.{None, codes, length, IfOk};
ghost use Rattle.cip_guides.specs.FullGuesses.{AreFull};

use crate::guesses::only_guess;
use crate::lengths::has_long_rest;
use crate::wholes::nearest;
use cip_frac::Frac;
use cip_lin::Row;
use cip_plugin::{Guess, Heuristic, Plugin, View};
use cip_tighten::{cost_of, has_fraction, most_cost, rough};
use std::alloc::{AllocError, Global};

// From here on rough values aren't told apart.
const FAR: i64 = 1 << 58;

/// A heuristic: the last point, its whole columns rounded. A column goes to where no row keeps it from going, down
/// before up; one that is kept both ways goes to the nearer whole number. Nothing is brought where that costs no less
/// than what is held, or where continuous columns have long denominators.
#[derive(Drop)]
pub struct RoundHeuristic {
    locks: Vec<Lock>,
}

/// How many sides of rows keep a column from going down, and from going up.
#[derive(Clone, Copy)]
struct Lock {
    down: u32,
    up: u32,
}

// No side.
const FREE: Lock = Lock { down: 0, up: 0 };

/// Adds the locks of a row.
fn lock_row(row: &Row, locks: &mut [Lock]) {
    let low = u32::from(row.low().is_some());
    let high = u32::from(row.high().is_some());
    for term in row.terms() {
        let is_negative = term.coef.is_negative();
        if let Some(lock) = locks.get_mut(term.col as usize) {
            let (down, up) = if is_negative {
                (high, low)
            } else {
                (low, high)
            };
            lock.down = lock.down.saturating_add(down);
            lock.up = lock.up.saturating_add(up);
        }
    }
}

/// Whether a point may cost less than what is held, roughly.
fn may_be_cheaper(view: &View<'_>, values: &[Frac]) -> bool {
    let (Some(most), Some(cost)) = (most_cost(view), cost_of(view.costs, values)) else {
        return true;
    };
    let limit = rough(most);
    limit.wrapping_abs() >= FAR || cost < limit
}

impl RoundHeuristic {
    /// One that was never called. It takes no memory.
    pub fn new(alloc: Global) -> RoundHeuristic {
        RoundHeuristic {
            locks: Vec::new(alloc),
        }
    }

    /// The whole number to which a column goes: to where no row keeps it from going, down before up, else to the nearer
    /// one.
    fn rounded(&self, column: usize, value: Frac) -> Frac {
        match self.locks.get(column) {
            Some(lock) if lock.down > 0 && lock.up > 0 => nearest(value),
            Some(lock) if lock.down > 0 => value.rounded_up(),
            _ => value.rounded_down(),
        }
    }

    /// The point with its whole columns rounded.
    fn values(
        &self,
        alloc: Global,
        whole: &[bool],
        point: &[Frac],
    ) -> Result<Vec<Frac>, AllocError> {
        let mut values = Vec::new(alloc);
        for (column, value) in point.iter().enumerate() {
            let mut own = *value;
            if !value.is_whole() && whole.get(column) == Some(&true) {
                own = self.rounded(column, own);
            }
            values.push(own)?;
        }
        Ok(values)
    }
}

impl Plugin for RoundHeuristic {
    ghost told = { λ _. None };

    ghost label = { λ _. codes "round" };

    fn name(&self) -> &str {
        "round"
    }

    fn priority(&self) -> i32 {
        30
    }

    fn init(&mut self, _alloc: Global) -> Result<(), AllocError> {
        Ok(())
    }

    fn init_solve(&mut self, _alloc: Global, view: &View<'_>) -> Result<(), AllocError> {
        self.locks.clear();
        self.locks.resize(view.costs.len(), FREE)?;
        for row in view.own {
            lock_row(row, self.locks.as_mut_slice());
        }
        Ok(())
    }

    fn exit_solve(&mut self) {}

    fn exit(&mut self) {}
}

impl Heuristic for RoundHeuristic {
    fn search(&mut self, alloc: Global, view: &View<'_>) -> Result<Vec<Guess>, AllocError>
        ensures full { IfOk result (λ guesses. AreFull (length view.now.costs.now) guesses.items) }
    {
        match view.point {
            Some(point) if has_fraction(view.whole, point) && !has_long_rest(view.whole, point) => {
                let values = self.values(alloc, view.whole, point)?;
                if !may_be_cheaper(view, values.as_slice()) {
                    return Ok(Vec::new(alloc));
                }
                only_guess(alloc, view.costs.len(), values)
            }
            _ => Ok(Vec::new(alloc)),
        }
    }
}

//! The separator of rows that are divided by small numbers and rounded.
ghost use Rattle.std.specs.Prelude.{None, codes};

use crate::candidates::Candidates;
use crate::gains::Gains;
use crate::roundings::rounded_cut;
use crate::shifts::{Aim, Shifted};
use crate::stops::{Stop, unless_refused};
use crate::sums::{Standing, Sum};
use crate::tight::{list_standings, tight_at};
use cip_plugin::{Cut, Plugin, Separator, View};
use std::alloc::{AllocError, Global};

// The most cuts of a round.
const MOST_CUTS: usize = 2;

// What rows are divided by, once they are made whole.
const DIVISORS: [i64; 2] = [2, 3];

/// A separator: rows that stand at a side at the last point of the root, divided by 2 and by 3, their coefficients
/// rounded by the sides of columns.
#[derive(Drop)]
pub struct RoundingSeparator {
    gains: Gains,
    standings: Vec<Standing>,
    sum: Sum,
    shifted: Shifted,
    candidates: Candidates,
}

impl RoundingSeparator {
    /// One that was never called. It takes no memory.
    pub fn new(alloc: Global) -> RoundingSeparator {
        RoundingSeparator {
            gains: Gains::new(),
            standings: Vec::new(alloc),
            sum: Sum::new(alloc),
            shifted: Shifted::new(alloc),
            candidates: Candidates::new(alloc),
        }
    }

    /// Keeps the cuts of the sum as it is.
    fn divide_all(&mut self, alloc: Global, view: &View<'_>) -> Result<(), Stop> {
        let point = view.point.unwrap_or(&[]);
        self.shifted.take(view, point, &self.sum.terms, self.sum.right, Aim::Rounding)?;
        if !self.shifted.is_fractional {
            return Ok(());
        }
        for by in DIVISORS {
            self.candidates
                .keep(rounded_cut(alloc, &self.sum, &self.shifted, by))?;
        }
        Ok(())
    }

    /// Keeps the cuts of a row.
    fn search_row(&mut self, alloc: Global, view: &View<'_>, place: usize) -> Result<(), Stop> {
        let Some(row) = tight_at(view, self.standings.as_slice(), place) else {
            return Err(Stop::GaveUp);
        };
        self.sum.begin_at_most(&row)?;
        unless_refused(self.divide_all(alloc, view))?;
        if row.standing != Standing::Both {
            return Ok(());
        }
        self.sum.turn();
        self.divide_all(alloc, view)
    }
}

impl Plugin for RoundingSeparator {
    ghost told = { λ _. None };

    ghost label = { λ _. codes "rounding" };

    fn name(&self) -> &str {
        "rounding"
    }

    fn priority(&self) -> i32 {
        30
    }

    fn init(&mut self, _alloc: Global) -> Result<(), AllocError> {
        Ok(())
    }

    fn init_solve(&mut self, _alloc: Global, _view: &View<'_>) -> Result<(), AllocError> {
        self.gains = Gains::new();
        Ok(())
    }

    fn exit_solve(&mut self) {
        self.candidates.clear();
    }

    fn exit(&mut self) {}
}

impl Separator for RoundingSeparator {
    fn separate(&mut self, alloc: Global, view: &View<'_>) -> Result<Vec<Cut>, AllocError> {
        if !self.gains.may_pay(view) {
            return Ok(Vec::new(alloc));
        }
        self.candidates.clear();
        if let Some(point) = view.point {
            list_standings(view, point, &mut self.standings)?;
        }
        for place in 0..view.own.len() {
            if self.candidates.is_full() {
                break;
            }
            unless_refused(self.search_row(alloc, view, place))?;
        }
        self.candidates.choose(alloc, MOST_CUTS)
    }
}

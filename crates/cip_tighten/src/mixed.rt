//! The separator of mixed roundings.
ghost use Rattle.std.specs.Prelude.{None, codes};

use crate::candidates::Candidates;
use crate::column_rows::ColumnRows;
use crate::gains::Gains;
use crate::mixing::{best_division, list_divisors};
use crate::paths::go_on;
use crate::shifts::{Shift, Shifted, list_nearest};
use crate::split_cuts::keep_mixed;
use crate::stops::{Stop, unless_refused};
use crate::sums::{Standing, Sum, Terms};
use crate::tight::{list_standings, tight_at};
use cip_frac::Frac;
use cip_plugin::{Cut, Plugin, Separator, View};
use std::alloc::{AllocError, Global};

// The most cuts of a round.
const MOST_CUTS: usize = 4;

// The most rows of a sum.
const MOST_ROWS: usize = 6;

// The most coefficients that are looked at in a round.
const MOST_WORK: usize = 1 << 23;

/// A separator: mixed roundings of rows that stand at a side at the last point of the root, and of up to six of them,
/// added up so that continuous columns between their sides cancel out. Each is proved by a split cut.
#[derive(Drop)]
pub struct MixedSeparator {
    gains: Gains,
    standings: Vec<Standing>,
    columns: ColumnRows,
    sum: Sum,
    ways: Vec<Option<Shift>>,
    shifted: Shifted,
    divisors: Vec<i64>,
    terms: Terms,
    candidates: Candidates,
    next: usize,
    work: usize,
}

impl MixedSeparator {
    /// One that was never called. It takes no memory.
    pub fn new(alloc: Global) -> MixedSeparator {
        MixedSeparator {
            gains: Gains::new(),
            standings: Vec::new(alloc),
            columns: ColumnRows::new(alloc),
            sum: Sum::new(alloc),
            ways: Vec::new(alloc),
            shifted: Shifted::new(alloc),
            divisors: Vec::new(alloc),
            terms: Vec::new(alloc),
            candidates: Candidates::new(alloc),
            next: 0,
            work: 0,
        }
    }

    /// Keeps the best mixed rounding of the sum with its sign.
    fn mix(&mut self, alloc: Global, view: &View<'_>) -> Result<(), Stop> {
        let items = self.shifted.items.as_slice();
        list_divisors(items, &mut self.divisors)?;
        let looked_at = items.len().saturating_mul(self.divisors.len());
        self.work = self.work.saturating_add(looked_at);
        let best = best_division(&self.shifted, self.divisors.as_slice(), &mut self.terms)?;
        let (sum, candidates) = (&self.sum, &mut self.candidates);
        keep_mixed(alloc, view, sum, &self.shifted, best, candidates)
    }

    /// Keeps the best mixed roundings of the sum with both signs.
    fn mix_both(&mut self, alloc: Global, view: &View<'_>) -> Result<(), Stop> {
        let ways = self.ways.as_slice();
        self.shifted
            .take_listed(ways, &self.sum.terms, self.sum.right)?;
        if !self.shifted.is_fractional {
            return Err(Stop::GaveUp);
        }
        unless_refused(self.mix(alloc, view))?;
        self.sum.turn();
        self.shifted.turn();
        unless_refused(self.mix(alloc, view))?;
        self.sum.turn();
        self.shifted.turn();
        Ok(())
    }

    /// Adds rows to the one at a place until there is a cut, or no more row to add.
    fn search_from(
        &mut self,
        alloc: Global,
        view: &View<'_>,
        point: &[Frac],
        place: usize,
    ) -> Result<(), Stop> {
        let Some(row) = tight_at(view, self.standings.as_slice(), place) else {
            return Err(Stop::GaveUp);
        };
        self.sum.begin(&row)?;
        for _ in 1..MOST_ROWS {
            let before = self.candidates.len();
            unless_refused(self.mix_both(alloc, view))?;
            if self.candidates.len() > before {
                return Ok(());
            }
            let standings = self.standings.as_slice();
            go_on(view, point, standings, &self.columns, &mut self.sum)?;
        }
        self.mix_both(alloc, view)
    }
}

impl Plugin for MixedSeparator {
    ghost told = { λ _. None };

    ghost label = { λ _. codes "mir" };

    fn name(&self) -> &str {
        "mir"
    }

    fn priority(&self) -> i32 {
        10
    }

    fn init(&mut self, _alloc: Global) -> Result<(), AllocError> {
        Ok(())
    }

    fn init_solve(&mut self, _alloc: Global, view: &View<'_>) -> Result<(), AllocError> {
        self.gains = Gains::new();
        self.next = 0;
        self.columns.take(view.own, view.whole, true)
    }

    fn exit_solve(&mut self) {
        self.candidates.clear();
    }

    fn exit(&mut self) {}
}

impl Separator for MixedSeparator {
    fn separate(&mut self, alloc: Global, view: &View<'_>) -> Result<Vec<Cut>, AllocError> {
        if !self.gains.may_pay(view) {
            return Ok(Vec::new(alloc));
        }
        let point = view.point.unwrap_or(&[]);
        list_standings(view, point, &mut self.standings)?;
        list_nearest(view, point, &mut self.ways)?;
        self.candidates.clear();
        self.work = 0;
        for _ in 0..self.standings.len() {
            if self.candidates.is_full() || self.work > MOST_WORK {
                break;
            }
            let place = self.next;
            self.next = place.wrapping_add(1);
            if self.next >= self.standings.len() {
                self.next = 0;
            }
            unless_refused(self.search_from(alloc, view, point, place))?;
        }
        self.candidates.choose(alloc, MOST_CUTS)
    }
}

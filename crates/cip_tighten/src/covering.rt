//! The separator of covers.
ghost use Rattle.std.specs.Prelude.{None, codes};

use crate::candidates::Candidates;
use crate::covers::{Covers, Order};
use crate::gains::Gains;
use crate::stops::{Stop, unless_refused};
use crate::sums::{Standing, Sum};
use crate::tight::{short, tight_row};
use cip_lin::RowId;
use cip_plugin::{Cut, Plugin, Separator, View};
use std::alloc::{AllocError, Global};

// The most cuts of a round.
const MOST_CUTS: usize = 4;

/// A separator: of each row of the program and each side of it, columns with two values that can't all stand at the
/// costlier one, and the cut that one of them doesn't.
#[derive(Drop)]
pub struct CoverSeparator {
    gains: Gains,
    sum: Sum,
    covers: Covers,
    candidates: Candidates,
}

impl CoverSeparator {
    /// One that was never called. It takes no memory.
    pub fn new(alloc: Global) -> CoverSeparator {
        CoverSeparator {
            gains: Gains::new(),
            sum: Sum::new(alloc),
            covers: Covers::new(alloc),
            candidates: Candidates::new(alloc),
        }
    }

    /// Keeps the cuts of covers of a side of a row.
    fn search_side(
        &mut self,
        alloc: Global,
        view: &View<'_>,
        place: usize,
        standing: Standing,
    ) -> Result<(), Stop> {
        let id = RowId::Own(short(place));
        let Some(row) = tight_row(view, id, standing) else {
            return Err(Stop::GaveUp);
        };
        self.sum.begin_at_most(&row)?;
        let (sum, candidates) = (&self.sum, &mut self.candidates);
        unless_refused(
            self.covers
                .keep_by(alloc, view, sum, Order::ByRate, candidates),
        )?;
        self.covers
            .keep_by(alloc, view, sum, Order::ByWay, candidates)
    }
}

impl Plugin for CoverSeparator {
    ghost told = { λ _. None };

    ghost label = { λ _. codes "cover" };

    fn name(&self) -> &str {
        "cover"
    }

    fn priority(&self) -> i32 {
        20
    }

    fn init(&mut self, _alloc: Global) -> Result<(), AllocError> {
        Ok(())
    }

    fn init_solve(&mut self, _alloc: Global, _view: &View<'_>) -> Result<(), AllocError> {
        self.gains = Gains::new();
        Ok(())
    }

    fn exit_solve(&mut self) {
        self.candidates.clear();
    }

    fn exit(&mut self) {}
}

impl Separator for CoverSeparator {
    fn separate(&mut self, alloc: Global, view: &View<'_>) -> Result<Vec<Cut>, AllocError> {
        if !self.gains.may_pay(view) {
            return Ok(Vec::new(alloc));
        }
        self.candidates.clear();
        for place in 0..view.own.len() {
            if self.candidates.is_full() {
                break;
            }
            unless_refused(self.search_side(alloc, view, place, Standing::High))?;
            unless_refused(self.search_side(alloc, view, place, Standing::Low))?;
        }
        self.candidates.choose(alloc, MOST_CUTS)
    }
}

//! Rows divided by a coefficient, and rounded.
use cip_lin::{RowId, Sides};
use cip_plugin::{Cut, View};
use cip_tighten::{
    Aim, Candidates, Gains, Shifted, Standing, Stop, Sum, activity, rounded_cut, tight_row,
    unless_refused,
};
use std::alloc::{AllocError, Global};

// The most cuts of a round.
const MOST_CUTS: usize = 2;

/// What rows are rounded in, and what that gained.
#[derive(Drop)]
pub(crate) struct Rounding {
    gains: Gains,
    sum: Sum,
    shifted: Shifted,
    candidates: Candidates,
}

/// Whether the newest row of the pool cuts the last point off.
fn is_cut_off(view: &View<'_>) -> bool {
    let (Some(kept), Some(point)) = (view.pool.last(), view.point) else {
        return false;
    };
    let sides = Sides {
        low: kept.row.low(),
        high: kept.row.high(),
    };
    match activity(kept.row.terms(), point) {
        Some(sum) => !sides.contains(sum),
        None => true,
    }
}

impl Rounding {
    /// Nothing. It takes no memory.
    pub(crate) fn new(alloc: Global) -> Rounding {
        Rounding {
            gains: Gains::new(),
            sum: Sum::new(alloc),
            shifted: Shifted::new(alloc),
            candidates: Candidates::new(alloc),
        }
    }

    /// Begins with a search.
    pub(crate) fn begin(&mut self) {
        self.gains = Gains::new();
        self.candidates.clear();
    }

    /// Lets go of all cuts.
    pub(crate) fn clear(&mut self) {
        self.candidates.clear();
    }

    /// Whether a round may pay: not where a row was found already that cuts the last point off.
    pub(crate) fn may_pay(&mut self, view: &View<'_>) -> bool {
        self.gains.may_pay(view) && !is_cut_off(view)
    }

    /// Keeps the cut of a side of a row, divided by the greatest size of a coefficient of a whole column between its
    /// sides.
    fn round_side(
        &mut self,
        alloc: Global,
        view: &View<'_>,
        number: u32,
        standing: Standing,
    ) -> Result<(), Stop> {
        let Some(row) = tight_row(view, RowId::Own(number), standing) else {
            return Err(Stop::GaveUp);
        };
        self.sum.begin_at_most(&row)?;
        let point = view.point.unwrap_or(&[]);
        self.shifted.take(view, point, &self.sum.terms, self.sum.right, Aim::Rounding)?;
        let mut by = 0;
        for shift in &self.shifted.items {
            if shift.is_whole && shift.is_between() {
                by = shift.coef.wrapping_abs().max(by);
            }
        }
        let cut = rounded_cut(alloc, &self.sum, &self.shifted, by)?;
        self.candidates.push(cut)?;
        Ok(())
    }

    /// Keeps the cuts of a row, and answers whether there is one.
    pub(crate) fn round(
        &mut self,
        alloc: Global,
        view: &View<'_>,
        number: u32,
    ) -> Result<bool, AllocError> {
        let before = self.candidates.len();
        unless_refused(self.round_side(alloc, view, number, Standing::High))?;
        unless_refused(self.round_side(alloc, view, number, Standing::Low))?;
        Ok(self.candidates.len() > before)
    }

    /// The best cuts.
    pub(crate) fn choose(&mut self, alloc: Global) -> Result<Vec<Cut>, AllocError> {
        self.candidates.choose(alloc, MOST_CUTS)
    }
}

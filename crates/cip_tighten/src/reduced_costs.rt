//! The propagator of reduced costs.
ghost use Rattle.std.specs.Prelude.{None, codes};

use crate::cost_rows::CostRow;
use crate::gains::{cost_of, most_cost};
use crate::implied::{Implied, Narrowing, Region, Source, list_implied};
use crate::numbers::{UNIT, rough};
use crate::patience::Patience;
use crate::reductions::push_reduction;
use cip_lin::{Combo, Row, RowId};
use cip_plugin::{Plugin, Propagator, Reduction, View};
use std::alloc::{AllocError, Global};

// The most sides of a call: each is judged with all rows of the bound.
const MOST_SIDES: usize = 8;

// So many calls go by behind one that brought sides.
const REST: u32 = 32;

// The greatest denominator of a factor of the bound.
const MOST_UNDER: i128 = 1 << 48;

/// A propagator: where a cost is held, sides of whole columns that the multipliers of the last linear program imply.
/// Its rows added up with the cutoff row leave minus the reduced costs, so a column with one is near its side at each
/// point that is cheaper. Behind the root it looks only where the last point's cost is near the one held; 32 calls
/// go by behind one that brought sides, and behind each that brought none twice as many as before.
#[derive(Drop)]
pub struct ReducedCostPropagator {
    cost_row: CostRow,
    implied: Vec<Implied>,
    patience: Patience,
}

/// Whether reduced costs may imply sides: of the root, or where what the last point costs is less than the most that a
/// cheaper one may cost by at most a sixteenth of that, roughly.
fn may_pay(view: &View<'_>) -> bool {
    let (Some(point), Some(most)) = (view.point, most_cost(view)) else {
        return false;
    };
    if view.node == 0 {
        return true;
    }
    let Some(cost) = cost_of(view.costs, point) else {
        return false;
    };
    let far = i128::from(rough(most));
    let gap = far.wrapping_sub(i128::from(cost));
    gap.wrapping_mul(16) <= far.wrapping_abs().max(i128::from(UNIT))
}

/// Whether the bound's rows may be added up: none is the cutoff row, and no factor has a long denominator, so that work
/// on these rows isn't long, and the judge's on each side isn't.
fn may_add(combo: &Combo) -> bool {
    for multiple in combo.rows.as_slice() {
        if multiple.row == RowId::Cutoff || multiple.factor.denominator() > MOST_UNDER {
            return false;
        }
    }
    true
}

impl ReducedCostPropagator {
    /// One that was never called. It takes no memory.
    pub fn new(alloc: Global) -> ReducedCostPropagator {
        ReducedCostPropagator {
            cost_row: CostRow::new(alloc),
            implied: Vec::new(alloc),
            patience: Patience::new(),
        }
    }

    /// Adds the sides of whole columns that the row of reduced costs implies, or all of them where they show that the
    /// box has no point.
    fn narrow(
        &mut self,
        alloc: Global,
        view: &View<'_>,
        row: &Row,
        reductions: &mut Vec<Reduction>,
    ) -> Result<(), AllocError> {
        let region = Region {
            sides: view.bounds.as_slice(),
            whole: view.whole,
            is_exact: false,
        };
        self.implied.clear();
        let most = view.costs.len();
        let narrowing = list_implied(row, Source::AtLeast, &region, most, &mut self.implied)?;
        for item in &self.implied {
            if reductions.len() >= MOST_SIDES {
                break;
            }
            if narrowing == Narrowing::Contradiction
                || view.whole.get(item.col as usize) == Some(&true)
            {
                push_reduction(alloc, *item, self.cost_row.rows.as_slice(), reductions)?;
            }
        }
        Ok(())
    }

    /// Adds what is implied, where that may pay, and notes whether there was anything.
    fn narrow_all(
        &mut self,
        alloc: Global,
        view: &View<'_>,
        reductions: &mut Vec<Reduction>,
    ) -> Result<(), AllocError> {
        if !self.patience.is_turn() || !may_pay(view) {
            return Ok(());
        }
        let row = match (view.combo, view.cutoff) {
            (Some(combo), Some(cutoff)) if may_add(combo) => self
                .cost_row
                .take(alloc, view, combo, cutoff)?,
            _ => None,
        };
        if let Some(row) = row {
            let outcome = self.narrow(alloc, view, &row, reductions);
            drop(row);
            outcome?;
        }
        if reductions.is_empty() {
            self.patience.lose();
        } else {
            self.patience.gain(REST);
        }
        Ok(())
    }
}

impl Plugin for ReducedCostPropagator {
    ghost told = { λ _. None };

    ghost label = { λ _. codes "redcost" };

    fn name(&self) -> &str {
        "redcost"
    }

    fn priority(&self) -> i32 {
        10
    }

    fn init(&mut self, _alloc: Global) -> Result<(), AllocError> {
        Ok(())
    }

    fn init_solve(&mut self, _alloc: Global, _view: &View<'_>) -> Result<(), AllocError> {
        self.patience = Patience::new();
        Ok(())
    }

    fn exit_solve(&mut self) {
        self.implied.clear();
    }

    fn exit(&mut self) {}
}

impl Propagator for ReducedCostPropagator {
    fn propagate(&mut self, alloc: Global, view: &View<'_>) -> Result<Vec<Reduction>, AllocError> {
        let mut reductions = Vec::new(alloc);
        match self.narrow_all(alloc, view, &mut reductions) {
            Ok(()) => Ok(reductions),
            Err(fault) => Err(fault),
        }
    }
}

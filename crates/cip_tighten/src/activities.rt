//! The propagator of what rows come to in a box.
ghost use Rattle.std.specs.Prelude.{None, codes};

use crate::budgets::Budget;
use crate::implied::{Implied, Region, Source};
use crate::patience::Patience;
use crate::reductions::{MOST_REDUCTIONS, add_side};
use crate::watched::Watched;
use cip_frac::Frac;
use cip_lin::{Row, RowId, Side, Sides};
use cip_plugin::{Plugin, Propagator, Reduction, View};
use std::alloc::{AllocError, Global};

// The most terms of rows that a call looks at, but for those of its last row.
const MOST_TERMS: usize = 1 << 20;

/// A propagator: sides of columns that rows of the program imply by the least and the greatest that they come to in the
/// node's box, and in what its own sides leave of that. A row is looked at again once a side of one of its columns has
/// changed, but not for its own sides; the cutoff row along with others, or once another cost is held. Behind each call
/// that brought nothing twice as many calls go by until the next that looks, and it does a bounded share of the nodes'
/// work.
#[derive(Drop)]
pub struct ActivityPropagator {
    watched: Watched,
    sides: Vec<Sides>,
    implied: Vec<Implied>,
    held: Option<Frac>,
    patience: Patience,
    budget: Budget,
}

impl ActivityPropagator {
    /// One that was never called. It takes no memory.
    pub fn new(alloc: Global) -> ActivityPropagator {
        ActivityPropagator {
            watched: Watched::new(alloc),
            sides: Vec::new(alloc),
            implied: Vec::new(alloc),
            held: None,
            patience: Patience::new(),
            budget: Budget::new(),
        }
    }

    /// Takes the sides that were listed, and has the rows of their columns wait. Answers whether each column has a
    /// value left.
    fn take_sides(&mut self) -> Result<bool, AllocError> {
        for item in &self.implied {
            if let Some(own) = self.sides.get_mut(item.col as usize) {
                match item.side {
                    Side::Low => own.low = Some(item.value),
                    Side::High => own.high = Some(item.value),
                }
                if own.cross() {
                    return Ok(false);
                }
            }
            self.watched.wait_for_column(item.col)?;
        }
        Ok(true)
    }

    /// Adds what a row implies, and answers whether the call ends behind it: no point of the box keeps the row, or the
    /// list is full.
    fn narrow(
        &mut self,
        alloc: Global,
        view: &View<'_>,
        id: RowId,
        row: &Row,
        reductions: &mut Vec<Reduction>,
    ) -> Result<bool, AllocError> {
        for source in [Source::AtLeast, Source::AtMost] {
            let region = Region {
                sides: self.sides.as_slice(),
                whole: view.whole,
                is_exact: false,
            };
            let implied = &mut self.implied;
            let ends = add_side(alloc, &region, (id, source), row, implied, reductions)?;
            let times = self.implied.len().saturating_add(1);
            self.budget.spend(row.terms().len().saturating_mul(times));
            if ends || !self.take_sides()? {
                return Ok(true);
            }
        }
        Ok(reductions.len() >= MOST_REDUCTIONS)
    }

    /// Adds what the rows that wait imply. One behind which the call ends waits again.
    fn narrow_by_rows(
        &mut self,
        alloc: Global,
        view: &View<'_>,
        reductions: &mut Vec<Reduction>,
    ) -> Result<(), AllocError> {
        let mut terms = 0usize;
        for _ in 0..MOST_TERMS {
            let Some(number) = self.watched.next() else {
                break;
            };
            let Some(row) = view.own.get(number as usize) else {
                break;
            };
            terms = terms.saturating_add(row.terms().len());
            let ends = self.narrow(alloc, view, RowId::Own(number), row, reductions)?;
            self.watched.end(number);
            if ends {
                return self.watched.wait_for(number);
            }
            if terms > MOST_TERMS {
                break;
            }
        }
        Ok(())
    }

    /// Takes the node's box; where a row waits, or another cost is held than when rows were looked at last, adds what
    /// the cutoff row and the rows that wait imply, and notes whether there was anything.
    fn look_and_narrow(
        &mut self,
        alloc: Global,
        view: &View<'_>,
        reductions: &mut Vec<Reduction>,
    ) -> Result<(), AllocError> {
        let sides = view.bounds.as_slice();
        self.watched.look(sides)?;
        self.sides.clear();
        self.sides.extend_from_slice(sides)?;
        let is_new = self.held != view.held;
        self.held = view.held;
        if !is_new && self.watched.count() == 0 {
            return Ok(());
        }
        let ends = match view.cutoff {
            Some(row) => self.narrow(alloc, view, RowId::Cutoff, row, reductions)?,
            None => false,
        };
        if !ends {
            self.narrow_by_rows(alloc, view, reductions)?;
        }
        self.watched.see(self.sides.as_slice())?;
        if reductions.is_empty() {
            self.patience.lose();
        } else {
            self.patience.gain(0);
        }
        Ok(())
    }
}

impl Plugin for ActivityPropagator {
    ghost told = { λ _. None };

    ghost label = { λ _. codes "activity" };

    fn name(&self) -> &str {
        "activity"
    }

    fn priority(&self) -> i32 {
        20
    }

    fn init(&mut self, _alloc: Global) -> Result<(), AllocError> {
        Ok(())
    }

    fn init_solve(&mut self, _alloc: Global, view: &View<'_>) -> Result<(), AllocError> {
        self.held = None;
        self.patience = Patience::new();
        self.budget.begin(view.own);
        self.watched
            .take(view.own, view.whole, view.bounds.as_slice())
    }

    fn exit_solve(&mut self) {
        self.watched.calm();
    }

    fn exit(&mut self) {}
}

impl Propagator for ActivityPropagator {
    fn propagate(&mut self, alloc: Global, view: &View<'_>) -> Result<Vec<Reduction>, AllocError> {
        if !self.budget.may_begin() || !self.patience.is_turn() {
            return Ok(Vec::new(alloc));
        }
        let mut reductions = Vec::new(alloc);
        match self.look_and_narrow(alloc, view, &mut reductions) {
            Ok(()) => Ok(reductions),
            Err(fault) => Err(fault),
        }
    }
}

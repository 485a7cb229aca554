//! The heuristic that exchanges columns.
ghost use Rattle.std.specs.Prelude.{None, codes, length, IfOk};
ghost use Rattle.cip_guides.specs.FullGuesses.{AreFull};

use crate::exchanges::Placed;
use crate::guesses::only_guess;
use crate::lengths::MOST_UNDER;
use crate::shares::Share;
use crate::wholes::is_whole_at;
use cip_frac::Frac;
use cip_plugin::{Guess, Heuristic, Plugin, View};
use cip_tighten::{is_long, rough, short};
use std::alloc::{AllocError, Global};

// The part of a share that it has.
const PART: usize = 4;

/// A heuristic: the last point that was accepted, its columns moved to where they cost less, the costliest first, as
/// far as each row goes. Where a row keeps a whole column from moving, another whole column of that row is moved by 1
/// the other way, if both together cost less. It works once on each point, but for those that have long denominators,
/// and does a bounded share of the nodes' work.
#[derive(Drop)]
pub struct ExchangeHeuristic {
    placed: Placed,
    order: Vec<(i64, u32)>,
    share: Share,
    held: Option<Frac>,
    is_lost: bool,
}

/// A number, or minus that.
fn signed(number: Frac, is_up: bool) -> Frac {
    if is_up { number } else { number.neg() }
}

/// The cost of a column.
fn cost_of(view: &View<'_>, col: u32) -> Frac {
    match view.costs.get(col as usize) {
        Some(cost) => *cost,
        None => Frac::zero(),
    }
}

impl ExchangeHeuristic {
    /// One that was never called. It takes no memory.
    pub fn new(alloc: Global) -> ExchangeHeuristic {
        ExchangeHeuristic {
            placed: Placed::new(alloc),
            order: Vec::new(alloc),
            share: Share::new(PART),
            held: None,
            is_lost: false,
        }
    }

    /// Moves a column by so much, up or down, and notes where that leaves the range.
    fn go(&mut self, view: &View<'_>, col: u32, by: Frac, is_up: bool) {
        if !self.placed.go(view.own, col, signed(by, is_up)) {
            self.is_lost = true;
        }
    }

    /// Moves a column by 1, and another one of the row that keeps it the other way, where they cost less together; and
    /// back again where a row isn't kept then. Answers whether they were moved.
    fn exchange(&mut self, view: &View<'_>, first: (u32, bool), place: usize) -> bool {
        let Some((row, _, coef)) = self.placed.row_at(view.own, first.0, place) else {
            return false;
        };
        let rises = coef.is_positive() == first.1;
        let cost = signed(cost_of(view, first.0), first.1);
        for term in row.terms() {
            if !self.share.spend(1) || self.is_lost {
                return false;
            }
            if term.col == first.0 || !is_whole_at(view.whole, term.col) {
                continue;
            }
            let is_up = term.coef.is_positive() != rises;
            let costs_less = match cost.add(signed(cost_of(view, term.col), is_up)) {
                Ok(sum) => sum.is_negative(),
                Err(_) => false,
            };
            let rows = self
                .placed
                .count(first.0)
                .saturating_add(self.placed.count(term.col));
            if !costs_less || !self.share.spend(rows.saturating_add(2)) {
                continue;
            }
            self.go(view, first.0, Frac::one(), first.1);
            self.go(view, term.col, Frac::one(), is_up);
            if self.placed.keeps(view, first.0) && self.placed.keeps(view, term.col) {
                return true;
            }
            self.go(view, first.0, Frac::one(), !first.1);
            self.go(view, term.col, Frac::one(), !is_up);
        }
        false
    }

    /// Moves a column to where it costs less, and back again where a row isn't kept then; or with another one. Answers
    /// whether it was moved.
    fn improve(&mut self, view: &View<'_>, col: u32) -> bool {
        let is_up = cost_of(view, col).is_negative();
        let rows = self.placed.count(col).saturating_add(1);
        if self.is_lost || !self.share.spend(rows) {
            return false;
        }
        let Some((reach, kept_by)) = self.placed.reach(view, col, is_up) else {
            return false;
        };
        let is_whole = is_whole_at(view.whole, col);
        let step = if is_whole {
            reach.rounded_down()
        } else {
            reach
        };
        if step.is_positive() {
            self.go(view, col, step, is_up);
            if self.placed.keeps(view, col) {
                return true;
            }
            self.go(view, col, step, !is_up);
            return false;
        }
        match kept_by {
            Some(place) if is_whole => self.exchange(view, (col, is_up), place),
            _ => false,
        }
    }

    /// Works on a point, unless it was worked on before, or the share is spent: moves all columns in their order.
    /// Answers whether it came to a better one, and nothing left the range.
    fn has_improved(&mut self, view: &View<'_>) -> Result<bool, AllocError> {
        let Some(guess) = view.guess else {
            return Ok(false);
        };
        if !self.share.may_begin() || view.held == self.held {
            return Ok(false);
        }
        self.held = view.held;
        self.is_lost = false;
        if is_long(guess, MOST_UNDER) || !self.placed.place(view.own, guess)? {
            return Ok(false);
        }
        let mut is_better = false;
        for place in 0..self.order.len() {
            if let Some((_, col)) = self.order.get(place).copied() {
                is_better |= self.improve(view, col);
            }
        }
        Ok(is_better && !self.is_lost)
    }
}

impl Plugin for ExchangeHeuristic {
    ghost told = { λ _. None };

    ghost label = { λ _. codes "exchange" };

    fn name(&self) -> &str {
        "exchange"
    }

    fn priority(&self) -> i32 {
        10
    }

    fn init(&mut self, _alloc: Global) -> Result<(), AllocError> {
        Ok(())
    }

    fn init_solve(&mut self, _alloc: Global, view: &View<'_>) -> Result<(), AllocError> {
        self.share.begin(view.own, view.costs.len());
        self.held = None;
        self.order.clear();
        for (column, cost) in view.costs.iter().enumerate() {
            if !cost.is_zero() {
                let rank = rough(cost.abs()).wrapping_neg();
                self.order.push((rank, short(column)))?;
            }
        }
        self.order.sort_unstable();
        self.placed.columns.take(view.own, view.whole, false)
    }

    fn exit_solve(&mut self) {
        self.held = None;
    }

    fn exit(&mut self) {}
}

impl Heuristic for ExchangeHeuristic {
    fn search(&mut self, alloc: Global, view: &View<'_>) -> Result<Vec<Guess>, AllocError>
        ensures full { IfOk result (λ guesses. AreFull (length view.now.costs.now) guesses.items) }
    {
        if !self.has_improved(view)? {
            return Ok(Vec::new(alloc));
        }
        let values = self.placed.values.to_vec(alloc)?;
        only_guess(alloc, view.costs.len(), values)
    }
}

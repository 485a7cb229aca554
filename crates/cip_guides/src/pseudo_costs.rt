//! The rule of pseudo-costs.
ghost use Rattle.std.specs.Prelude.{None, codes, IfOk, option_map};
ghost use Rattle.cip_guides.specs.PointSplits.{IsByPoint};

use crate::learnt::{Direction, Learnt};
use crate::past::{PastSplit, PastSplits};
use crate::splits::{rough_part, split_at};
use cip_frac::Frac;
use cip_lin::Sides;
use cip_plugin::{BranchRule, Plugin, Split, View};
use cip_tighten::{UNIT, cost_of, short};
use std::alloc::{AllocError, Global};

/// A branching rule: the whole column by whose split both halves are expected to cost most. What a column costs for
/// each 1 that it is moved up or down is learnt from the nodes whose parents this rule has seen; until a column has
/// been learnt of, it counts like the mean of the others.
#[derive(Drop)]
pub struct PseudoCostRule {
    learnt: Learnt,
    past: PastSplits,
}

/// The column whose split is best, the first of such columns; none where none can be split.
fn best_column(learnt: &Learnt, whole: &[bool], sides: &[Sides], point: &[Frac]) -> Option<u32> {
    let mut best = None;
    let mut most = 0;
    for (column, value) in point.iter().enumerate() {
        let col = short(column);
        if split_at(whole, sides, point, col).is_some() {
            let score = learnt.score(col, rough_part(*value));
            if score > most {
                best = Some(col);
                most = score;
            }
        }
    }
    best
}

impl PseudoCostRule {
    /// One that was never called. It takes no memory.
    pub fn new(alloc: Global) -> PseudoCostRule {
        PseudoCostRule {
            learnt: Learnt::new(alloc),
            past: PastSplits::new(alloc),
        }
    }

    /// Learns what the split above a node cost, by what the node's own point costs and how far the column was moved,
    /// roughly: where the split was seen, and the column's sides lie in the node's half.
    fn learn(&mut self, view: &View<'_>, cost: Option<i64>) {
        let (Some(cost), Some((split, direction))) = (cost, self.past.above(view.node)) else {
            return;
        };
        let Some(sides) = view.bounds.as_slice().get(split.col as usize) else {
            return;
        };
        let way = match (direction, sides.low, sides.high) {
            (Direction::Down, _, Some(high)) if high.floor() <= split.at => split.part,
            (Direction::Up, Some(low), _) if low.ceil() > split.at => UNIT.wrapping_sub(split.part),
            _ => return,
        };
        let rise = cost.saturating_sub(split.cost);
        self.learnt.add(split.col, direction, rise, way);
    }

    /// Keeps a split with what its point costs, so that its halves are known again.
    fn keep(
        &mut self,
        number: u64,
        split: Option<Split>,
        point: &[Frac],
        cost: Option<i64>,
    ) -> Result<(), AllocError> {
        let (Some(split), Some(cost)) = (split, cost) else {
            return Ok(());
        };
        let Some(value) = point.get(split.col as usize) else {
            return Ok(());
        };
        let past = PastSplit {
            col: split.col,
            at: split.at,
            cost,
            part: rough_part(*value),
        };
        self.past.keep(number, past)
    }
}

impl Plugin for PseudoCostRule {
    ghost told = { λ _. None };

    ghost label = { λ _. codes "pseudo" };

    fn name(&self) -> &str {
        "pseudo"
    }

    fn priority(&self) -> i32 {
        30
    }

    fn init(&mut self, _alloc: Global) -> Result<(), AllocError> {
        Ok(())
    }

    fn init_solve(&mut self, _alloc: Global, view: &View<'_>) -> Result<(), AllocError> {
        self.past.begin();
        self.learnt.begin(view.costs.len())
    }

    fn exit_solve(&mut self) {
        self.past.begin();
    }

    fn exit(&mut self) {}
}

impl BranchRule for PseudoCostRule {
    fn branch(&mut self, _alloc: Global, view: &View<'_>) -> Result<Option<Split>, AllocError>
        ensures split { IfOk result (λ split.
            IsByPoint view.now.whole.now (option_map (λ values. values.now) view.now.point) split) }
    {
        let number = self.past.count(view.node);
        let Some(point) = view.point else {
            return Ok(None);
        };
        let cost = cost_of(view.costs, point);
        self.learn(view, cost);
        let sides = view.bounds.as_slice();
        let split = match best_column(&self.learnt, view.whole, sides, point) {
            Some(col) => split_at(view.whole, sides, point, col),
            None => None,
        };
        self.keep(number, split, point, cost)?;
        Ok(split)
    }
}

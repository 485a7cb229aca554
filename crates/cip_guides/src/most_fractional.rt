//! The rule that takes the column that is farthest from a whole value.
ghost use Rattle.std.specs.Prelude.{None, codes, IfOk, option_map};
ghost use Rattle.cip_guides.specs.PointSplits.{IsByPoint};

use crate::splits::split_at;
use cip_frac::Frac;
use cip_lin::Sides;
use cip_plugin::{BranchRule, Plugin, Split, View};
use cip_tighten::short;
use std::alloc::{AllocError, Global};

/// A branching rule: the whole column whose value at the last point is farthest from a whole number, the first of such
/// columns, at that value rounded down.
#[derive(Clone, Copy, Drop)]
pub struct MostFractionalRule;

/// The column that can be split and is farthest from a whole value, if there is one. A distance that leaves the range
/// counts as 0.
fn farthest(whole: &[bool], sides: &[Sides], point: &[Frac]) -> Option<u32> {
    let mut best = None;
    let mut most = Frac::zero();
    for (column, value) in point.iter().enumerate() {
        let col = short(column);
        if split_at(whole, sides, point, col).is_some() {
            let Ok(below) = value.sub(value.rounded_down()) else {
                continue;
            };
            let far = match Frac::one().sub(below) {
                Ok(above) if above < below => above,
                Ok(_) => below,
                Err(_) => Frac::zero(),
            };
            if far > most {
                best = Some(col);
                most = far;
            }
        }
    }
    best
}

impl MostFractionalRule {
    /// The rule. It keeps nothing.
    pub fn new() -> MostFractionalRule {
        MostFractionalRule
    }
}

impl Plugin for MostFractionalRule {
    ghost told = { λ _. None };

    ghost label = { λ _. codes "mostfrac" };

    fn name(&self) -> &str {
        "mostfrac"
    }

    fn priority(&self) -> i32 {
        20
    }

    fn init(&mut self, _alloc: Global) -> Result<(), AllocError> {
        Ok(())
    }

    fn init_solve(&mut self, _alloc: Global, _view: &View<'_>) -> Result<(), AllocError> {
        Ok(())
    }

    fn exit_solve(&mut self) {}

    fn exit(&mut self) {}
}

impl BranchRule for MostFractionalRule {
    fn branch(&mut self, _alloc: Global, view: &View<'_>) -> Result<Option<Split>, AllocError>
        ensures split { IfOk result (λ split.
            IsByPoint view.now.whole.now (option_map (λ values. values.now) view.now.point) split) }
    {
        let (sides, Some(point)) = (view.bounds.as_slice(), view.point) else {
            return Ok(None);
        };
        match farthest(view.whole, sides, point) {
            Some(col) => Ok(split_at(view.whole, sides, point, col)),
            None => Ok(None),
        }
    }
}

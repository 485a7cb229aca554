//! The rule that takes the first column.
ghost use Rattle.std.specs.Prelude.{None, codes, IfOk, option_map};
ghost use Rattle.cip_guides.specs.PointSplits.{IsByPoint};

use crate::splits::split_at;
use cip_plugin::{BranchRule, Plugin, Split, View};
use cip_tighten::short;
use std::alloc::{AllocError, Global};

/// A branching rule: the first whole column whose value at the last point isn't whole, at that value rounded down.
#[derive(Clone, Copy, Drop)]
pub struct FirstRule;

impl FirstRule {
    /// The rule. It keeps nothing.
    pub fn new() -> FirstRule {
        FirstRule
    }
}

impl Plugin for FirstRule {
    ghost told = { λ _. None };

    ghost label = { λ _. codes "first" };

    fn name(&self) -> &str {
        "first"
    }

    fn priority(&self) -> i32 {
        10
    }

    fn init(&mut self, _alloc: Global) -> Result<(), AllocError> {
        Ok(())
    }

    fn init_solve(&mut self, _alloc: Global, _view: &View<'_>) -> Result<(), AllocError> {
        Ok(())
    }

    fn exit_solve(&mut self) {}

    fn exit(&mut self) {}
}

impl BranchRule for FirstRule {
    fn branch(&mut self, _alloc: Global, view: &View<'_>) -> Result<Option<Split>, AllocError>
        ensures split { IfOk result (λ split.
            IsByPoint view.now.whole.now (option_map (λ values. values.now) view.now.point) split) }
    {
        let Some(point) = view.point else {
            return Ok(None);
        };
        for col in 0..short(point.len()) {
            let split = split_at(view.whole, view.bounds.as_slice(), point, col);
            if split.is_some() {
                return Ok(split);
            }
        }
        Ok(None)
    }
}

//! A branching rule: the dearest column whose last value isn't whole.
ghost use Rattle.std.specs.Prelude.{None, codes};

use cip_frac::Frac;
use cip_plugin::{BranchRule, Plugin, Split, View};
use std::alloc::{AllocError, Global};

/// Splits on the whole column of greatest cost, whatever its sign, of those whose value in the last point isn't whole,
/// between the two whole numbers next to that value.
#[derive(Drop)]
pub struct Dearest;

/// The split of a point; `None` where all whole columns have whole values.
fn dearest_split(point: &[Frac], whole: &[bool], costs: &[Frac]) -> Option<Split> {
    let mut most = None;
    let mut split = None;
    for (col, ((value, is_whole), cost)) in (0..u32::MAX).zip(point.iter().zip(whole).zip(costs)) {
        let size = Some(cost.abs());
        if *is_whole && !value.is_whole() && most < size {
            most = size;
            split = Some(Split {
                col,
                at: value.floor(),
            });
        }
    }
    split
}

impl Plugin for Dearest {
    ghost told = { λ _. None };

    ghost label = { λ _. codes "dearest" };

    fn name(&self) -> &str {
        "dearest"
    }

    fn priority(&self) -> i32 {
        0
    }

    fn init(&mut self, _alloc: Global) -> Result<(), AllocError> {
        Ok(())
    }

    fn init_solve(&mut self, _alloc: Global, _view: &View<'_>) -> Result<(), AllocError> {
        Ok(())
    }

    fn exit_solve(&mut self) {}

    fn exit(&mut self) {}
}

impl BranchRule for Dearest {
    fn branch(&mut self, _alloc: Global, view: &View<'_>) -> Result<Option<Split>, AllocError> {
        match view.point {
            None => Ok(None),
            Some(point) => Ok(dearest_split(point, view.whole, view.costs)),
        }
    }
}

//! The heuristic that dives.
ghost use Rattle.std.specs.Prelude.{None, codes, length, IfOk};
ghost use Rattle.cip_guides.specs.FullGuesses.{AreFull};

use crate::dives::Dive;
use crate::guesses::only_guess;
use crate::lengths::has_long_rest;
use crate::shares::Share;
use cip_plugin::{Guess, Heuristic, Plugin, View};
use std::alloc::{AllocError, Global};

// The part of a share that it has.
const PART: usize = 20;

/// A heuristic: whole columns are fixed one after another near the values of the last point, those nearest to a whole
/// number first, and then the continuous ones; behind each the sides that rows imply are taken. Where a row can't be
/// kept a whole column gets the number next to it, up to 64 times. It does a bounded share of the nodes' work, and
/// passes over points whose continuous columns have long denominators.
#[derive(Drop)]
pub struct DiveHeuristic {
    dive: Dive,
    share: Share,
}

impl DiveHeuristic {
    /// One that was never called. It takes no memory.
    pub fn new(alloc: Global) -> DiveHeuristic {
        DiveHeuristic {
            dive: Dive::new(alloc),
            share: Share::new(PART),
        }
    }
}

impl Plugin for DiveHeuristic {
    ghost told = { λ _. None };

    ghost label = { λ _. codes "dive" };

    fn name(&self) -> &str {
        "dive"
    }

    fn priority(&self) -> i32 {
        20
    }

    fn init(&mut self, _alloc: Global) -> Result<(), AllocError> {
        Ok(())
    }

    fn init_solve(&mut self, _alloc: Global, view: &View<'_>) -> Result<(), AllocError> {
        self.share.begin(view.own, view.costs.len());
        let watched = &mut self.dive.watched;
        watched.take(view.own, view.whole, view.bounds.as_slice())?;
        watched.calm();
        Ok(())
    }

    fn exit_solve(&mut self) {
        self.dive.watched.calm();
    }

    fn exit(&mut self) {}
}

impl Heuristic for DiveHeuristic {
    fn search(&mut self, alloc: Global, view: &View<'_>) -> Result<Vec<Guess>, AllocError>
        ensures full { IfOk result (λ guesses. AreFull (length view.now.costs.now) guesses.items) }
    {
        let is_there = match view.point {
            Some(point) if !has_long_rest(view.whole, point) && self.share.may_begin() => {
                let before = self.share.left;
                let is_there = self.dive.go(view, point, &mut self.share)?;
                self.share.end(before, is_there);
                is_there
            }
            _ => false,
        };
        if !is_there {
            return Ok(Vec::new(alloc));
        }
        let values = self.dive.values(alloc)?;
        only_guess(alloc, view.costs.len(), values)
    }
}

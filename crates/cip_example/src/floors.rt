//! A heuristic: the point of the last linear program, rounded down.
ghost use Rattle.std.specs.Prelude.{None, codes};

use cip_frac::Frac;
use cip_plugin::{Guess, Heuristic, Plugin, View};
use std::alloc::{AllocError, Global};

/// Brings the last point with the values of whole columns rounded down. Where rows have high sides and no coefficient
/// below 0, that is feasible.
#[derive(Drop)]
pub struct Floors;

/// A point with the values of whole columns rounded down.
fn rounded(alloc: Global, point: &[Frac], whole: &[bool]) -> Result<Vec<Frac>, AllocError> {
    let mut values = Vec::new(alloc);
    for (value, is_whole) in point.iter().zip(whole) {
        values.push(if *is_whole {
            value.rounded_down()
        } else {
            *value
        })?;
    }
    Ok(values)
}

impl Plugin for Floors {
    ghost told = { λ _. None };

    ghost label = { λ _. codes "floors" };

    fn name(&self) -> &str {
        "floors"
    }

    fn priority(&self) -> i32 {
        0
    }

    fn init(&mut self, _alloc: Global) -> Result<(), AllocError> {
        Ok(())
    }

    fn init_solve(&mut self, _alloc: Global, _view: &View<'_>) -> Result<(), AllocError> {
        Ok(())
    }

    fn exit_solve(&mut self) {}

    fn exit(&mut self) {}
}

impl Heuristic for Floors {
    fn search(&mut self, alloc: Global, view: &View<'_>) -> Result<Vec<Guess>, AllocError> {
        let mut guesses = Vec::new(alloc);
        if let Some(point) = view.point {
            guesses.push(Guess {
                values: rounded(alloc, point, view.whole)?,
            })?;
        }
        Ok(guesses)
    }
}

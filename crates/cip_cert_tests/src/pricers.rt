//! Pricers: one that never answers, one that answers from a list, and one that goes through all points of a block.
use crate::walks::{Walk, grow};
use cip_cert::{BlockPoint, Priced};
use cip_frac::Frac;
use cip_lagrange::Decomposed;
use cip_lin::Bounds;
use cip_price::{AskPricer, PointVerdict};
use std::alloc::{AllocError, Global};

/// Never answers.
#[derive(Drop)]
pub struct Silent;

impl AskPricer for Silent {
    ghost use Rattle.std.specs.Prelude.{None};

    ghost told = { λ _. None };

    fn ask(
        &mut self,
        _alloc: Global,
        _block: u32,
        _costs: &[Frac],
        _bounds: &Bounds,
    ) -> Result<Option<Priced>, AllocError> {
        Ok(None)
    }

    fn dropped(
        &mut self,
        _block: u32,
        _place: usize,
        _verdict: PointVerdict,
    ) -> Result<(), AllocError> {
        Ok(())
    }
}

/// Answers from a list, the last one first.
#[derive(Drop)]
pub struct Listed {
    pub answers: Vec<Priced>,
}

impl AskPricer for Listed {
    ghost use Rattle.std.specs.Prelude.{None};

    ghost told = { λ _. None };

    fn ask(
        &mut self,
        _alloc: Global,
        _block: u32,
        _costs: &[Frac],
        _bounds: &Bounds,
    ) -> Result<Option<Priced>, AllocError> {
        Ok(self.answers.pop())
    }

    fn dropped(
        &mut self,
        _block: u32,
        _place: usize,
        _verdict: PointVerdict,
    ) -> Result<(), AllocError> {
        Ok(())
    }
}

/// Goes through the points of 0 and 1 of a block, and brings the cheapest, and the tree that it went along.
#[derive(Drop)]
pub struct Branching<'a> {
    /// The blocks.
    pub blocks: &'a Decomposed,
}

/// The point that was found, if one was.
fn points_of(alloc: Global, best: Option<Vec<Frac>>) -> Result<Vec<BlockPoint>, AllocError> {
    let mut points = Vec::new(alloc);
    if let Some(values) = best {
        points.push(BlockPoint { values })?;
    }
    Ok(points)
}

/// The answer for a block at these costs, where it is there.
fn branched(
    alloc: Global,
    blocks: &Decomposed,
    block: u32,
    costs: &[Frac],
) -> Result<Option<Priced>, AllocError> {
    let Some(part) = blocks.subproblems.get(block as usize) else {
        return Ok(None);
    };
    let mut walk = Walk::new(alloc, costs.len())?;
    let tree = match grow(alloc, part, costs, 0, &mut walk) {
        Ok(tree) => tree,
        Err(error) => {
            drop(walk);
            return Err(error);
        }
    };
    let Walk {
        values: _values,
        least: _least,
        best,
    } = walk;
    match points_of(alloc, best) {
        Ok(points) => Ok(Some(Priced {
            points,
            tree: Some(tree),
        })),
        Err(error) => {
            drop(tree);
            Err(error)
        }
    }
}

impl AskPricer for Branching<'_> {
    ghost use Rattle.std.specs.Prelude.{None};

    ghost told = { λ _. None };

    fn ask(
        &mut self,
        alloc: Global,
        block: u32,
        costs: &[Frac],
        _bounds: &Bounds,
    ) -> Result<Option<Priced>, AllocError> {
        branched(alloc, self.blocks, block, costs)
    }

    fn dropped(
        &mut self,
        _block: u32,
        _place: usize,
        _verdict: PointVerdict,
    ) -> Result<(), AllocError> {
        Ok(())
    }
}

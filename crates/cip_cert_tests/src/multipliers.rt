//! The Lagrangian bound of programs of two blocks: x1 and x2 are 0 or 1, and 2 x1 + 2 x2 is at most 3; y1 and y2
//! likewise; x1 + x2 + y1 + y2 is at most 3 in the master row.
ghost use Rattle.cip_lagrange.specs.Decompositions.{IsDecompositionOf};
ghost use Rattle.cip_lagrange.specs.Scratches.{FitsScratch};

use crate::bounding_trees::{Shape, tree_of};
use crate::regions::{bound, empty, halves};
use cip_blocks::read_blocks;
use cip_cert::{BoundTree, CutFault};
use cip_frac::Frac;
use cip_lagrange::{Decomposed, LagrangeFault, LagrangeScratch, TreeBound, TreeFault, lagrange};
use cip_lin::{Bounds, Sides};
use cip_lp::read_lp;
use cip_model::Program;
use std::alloc::{AllocError, Global};

/// The costs are -2, -1, -2 and -1.
const PLAIN: &str = "Minimize\n COST: - 2 x1 - x2 - 2 y1 - y2\nSubject To\n R1: 2 x1 + 2 x2 <= 3\n\
    \x20R2: 2 y1 + 2 y2 <= 3\n R3: x1 + x2 + y1 + y2 <= 3\nBinaries\n x1 x2 y1 y2\nEnd\n";

/// With a constant of 7 and a column of no block, from 1 on, which costs -5 and stands in the master row too.
const OPEN: &str =
    "Minimize\n COST: - 2 x1 - x2 - 2 y1 - y2 - 5 z + 7\nSubject To\n R1: 2 x1 + 2 x2 <= 3\n\
    \x20R2: 2 y1 + 2 y2 <= 3\n R3: x1 + x2 + y1 + y2 + z <= 3\nBounds\n z >= 1\nBinaries\n x1 x2 y1 y2\nEnd\n";

/// The blocks of both.
const BLOCKS: &str = "NBLOCKS 2\nBLOCK 1\nR1\nBLOCK 2\nR2\nMASTERCONSS\nR3\n";

/// The trees of the two blocks.
#[derive(Clone, Copy)]
enum Trees {
    /// Both split down to a bound of -2 at the program's costs.
    Split,
    /// The box alone bounds both.
    Boxes,
    /// The first one is a leaf that nothing empties.
    FirstUnproved,
    /// The second one is.
    SecondUnproved,
    /// The first one shows that the block has no point, where x1 and x2 are 1.
    Emptied,
    /// It does, and the second one is a leaf that nothing empties.
    EmptiedUnproved,
}

/// What is asked: a program, the multiplier of the master row, and the trees.
type Ask = (&'static str, i64, Trees);

static ASKS: [Ask; 10] = [
    (PLAIN, 0, Trees::Split),
    (PLAIN, 1, Trees::Split),
    (PLAIN, -1, Trees::Boxes),
    (PLAIN, 0, Trees::FirstUnproved),
    (PLAIN, 0, Trees::SecondUnproved),
    (PLAIN, 0, Trees::Emptied),
    (PLAIN, 0, Trees::EmptiedUnproved),
    (OPEN, 0, Trees::Boxes),
    (OPEN, 1, Trees::Boxes),
    (OPEN, -6, Trees::Boxes),
];

/// The fault of a block's leaf that nothing empties.
fn unproved(block: u32) -> Result<TreeBound, LagrangeFault> {
    let value = halves(0);
    let fault = CutFault::NotPositive { value };
    let fault = TreeFault::At { node: 1, fault };
    Err(LagrangeFault::Tree { block, fault })
}

/// What is answered. At the multiplier -1 the costs -1, 0, -1 and 0 are left, and the master row's side takes 3 off. At
/// -6 the costs 4, 5, 4, 5 and 1 are left, and the side takes 18 off.
fn want(at: usize) -> Result<TreeBound, LagrangeFault> {
    match at {
        0 => Ok(TreeBound::Finite(Frac::from(-4i64))),
        1 => Err(LagrangeFault::NoSide { row: 2 }),
        2 => Ok(TreeBound::Finite(Frac::from(-5i64))),
        3 => unproved(0),
        4 => unproved(1),
        5 => Ok(TreeBound::NoPoint),
        6 => unproved(1),
        7 => Err(LagrangeFault::NoRest { col: 4 }),
        8 => Err(LagrangeFault::NoSide { row: 2 }),
        _ => Ok(TreeBound::Finite(Frac::from(-10i64))),
    }
}

/// The tree of the first block.
fn first_tree(alloc: Global, trees: Trees) -> Option<BoundTree> {
    match trees {
        Trees::Split | Trees::SecondUnproved => tree_of(alloc, Shape::Emptied),
        Trees::Boxes => bound(alloc, 0),
        Trees::FirstUnproved => empty(alloc, 0),
        Trees::Emptied | Trees::EmptiedUnproved => empty(alloc, -2),
    }
}

/// The tree of the second block.
fn second_tree(alloc: Global, trees: Trees) -> Option<BoundTree> {
    match trees {
        Trees::Split | Trees::FirstUnproved => tree_of(alloc, Shape::Emptied),
        Trees::Boxes | Trees::Emptied => bound(alloc, 0),
        Trees::SecondUnproved | Trees::EmptiedUnproved => empty(alloc, 0),
    }
}

/// Adds a tree to a list; whether it is there.
fn put_tree(list: &mut Vec<BoundTree>, tree: Option<BoundTree>) -> bool {
    match tree {
        Some(tree) => list.push(tree).is_ok(),
        None => false,
    }
}

/// The same in one list.
fn listed(alloc: Global, trees: Trees) -> Option<Vec<BoundTree>> {
    let mut list = Vec::new(alloc);
    let filled = put_tree(&mut list, first_tree(alloc, trees))
        && put_tree(&mut list, second_tree(alloc, trees));
    if filled {
        Some(list)
    } else {
        drop(list);
        None
    }
}

/// The box of a program; with x1 and x2 at 1, where the first tree rests on that.
fn box_of(alloc: Global, program: &Program, trees: Trees) -> Result<Bounds, AllocError> {
    let mut bounds = program.bounds().copied(alloc)?;
    let one = Sides {
        low: Some(Frac::one()),
        high: Some(Frac::one()),
    };
    if matches!(trees, Trees::Emptied | Trees::EmptiedUnproved) && bounds.len() > 1 {
        bounds.set_sides(0, one);
        bounds.set_sides(1, one);
    }
    Ok(bounds)
}

/// What `lagrange` answers, where it may be asked.
fn bounded(
    program: &Program,
    blocks: &Decomposed,
    bounds: &Bounds,
    multiplier: i64,
    trees: &[BoundTree],
    scratch: &mut LagrangeScratch,
) -> Option<Result<TreeBound, LagrangeFault>>
    requires made { IsDecompositionOf program.now blocks.now }
    requires room { FitsScratch program.now blocks.now scratch.old }
{
    if bounds.len() != program.columns() || trees.len() != blocks.subproblems.len() {
        return None;
    }
    if blocks.blocks.master_rows().len() != 1 {
        return None;
    }
    let multipliers = [Frac::from(multiplier)];
    Some(lagrange(program, blocks, bounds, &multipliers, trees, scratch))
}

/// What is answered for trees in a box, in a scratch of its own.
fn answer_for(
    alloc: Global,
    program: &Program,
    blocks: &Decomposed,
    bounds: &Bounds,
    multiplier: i64,
    trees: &[BoundTree],
) -> Option<Result<TreeBound, LagrangeFault>>
    requires { IsDecompositionOf program.now blocks.now }
{
    match LagrangeScratch::new(alloc, program, blocks) {
        Ok(mut scratch) => {
            let told = bounded(program, blocks, bounds, multiplier, trees, &mut scratch);
            drop(scratch);
            told
        }
        Err(_) => None,
    }
}

/// What is answered on a program, whose blocks were taken apart.
fn answer_with(
    alloc: Global,
    program: &Program,
    blocks: &Decomposed,
    multiplier: i64,
    trees: Trees,
) -> Option<Result<TreeBound, LagrangeFault>>
    requires { IsDecompositionOf program.now blocks.now }
{
    let list = listed(alloc, trees)?;
    let Ok(bounds) = box_of(alloc, program, trees) else {
        drop(list);
        return None;
    };
    let told = answer_for(alloc, program, blocks, &bounds, multiplier, list.as_slice());
    drop(bounds);
    drop(list);
    told
}

/// What is answered on a program.
fn answer_on(
    alloc: Global,
    program: &Program,
    multiplier: i64,
    trees: Trees,
) -> Option<Result<TreeBound, LagrangeFault>> {
    let Ok(read) = read_blocks(alloc, BLOCKS.as_bytes(), program) else {
        return None;
    };
    let made = Decomposed::new(alloc, program, &read);
    drop(read);
    match made {
        Ok(blocks) => {
            let told = answer_with(alloc, program, &blocks, multiplier, trees);
            drop(blocks);
            told
        }
        Err(_) => None,
    }
}

/// What is answered, where the program is read.
fn told_of(alloc: Global, ask: Ask) -> Option<Result<TreeBound, LagrangeFault>> {
    let (text, multiplier, trees) = ask;
    match read_lp(alloc, text.as_bytes()) {
        Ok(program) => {
            let told = answer_on(alloc, &program, multiplier, trees);
            drop(program);
            told
        }
        Err(_) => None,
    }
}

/// Whether this is answered.
fn is_answered(alloc: Global, at: usize) -> bool {
    if at >= ASKS.len() {
        return false;
    }
    told_of(alloc, ASKS[at]) == Some(want(at))
}

/// The first case in which something else is answered.
fn first_wrong(alloc: Global) -> Option<usize> {
    for at in 0..ASKS.len() {
        if !is_answered(alloc, at) {
            return Some(at);
        }
    }
    None
}

#[test]
fn multipliers_bound(rt: HostRuntime) {
    let wrong = first_wrong(rt.alloc());
    assert!(rt; wrong == None, "{wrong:?}");
}

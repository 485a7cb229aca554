//! What becomes of points that are offered for a block.
ghost use Rattle.cip_lagrange.specs.Decompositions.{IsDecompositionOf};
ghost use Rattle.cip_master.specs.KeptMasters.{ArePoolPoints};

use crate::block_texts::{BLOCKS, PLAIN};
use crate::held_points::{fill, offered, point};
use cip_blocks::read_blocks;
use cip_columns::{Added, ColumnPool};
use cip_frac::Frac;
use cip_lagrange::Decomposed;
use cip_lp::read_lp;
use cip_master::{PointVerdict, Taken};
use cip_model::Program;
use std::alloc::Global;

/// A point that is offered for the second block, and what becomes of it.
const OFFERS: [(&[i128], Taken); 5] = [
    (&[2, 0, 0], Taken::Dropped(PointVerdict::WrongCount)),
    (
        &[0, 4],
        Taken::Dropped(PointVerdict::BreaksBound { col: 1 }),
    ),
    (
        &[1, 0],
        Taken::Dropped(PointVerdict::BreaksWhole { col: 0 }),
    ),
    (&[2, 0], Taken::Offered(Added::Known(4))),
    (&[0, 2], Taken::Offered(Added::New(5))),
];

/// Whether this becomes of a point of the second block.
fn becomes(
    alloc: Global,
    pool: &mut ColumnPool,
    program: &Program,
    blocks: &Decomposed,
    halves: &[i128],
    want: Taken,
) -> bool
    requires made { IsDecompositionOf program.now blocks.now }
    requires points { ArePoolPoints program.now blocks.now pool.old }
    ensures { ArePoolPoints program.now blocks.now pool.new }
{
    match point(alloc, halves) {
        Some(point) => {
            let came = offered(pool, program, blocks, 1, &point);
            drop(point);
            came == Some(want)
        }
        None => false,
    }
}

/// The first offer of which something else becomes.
fn first_wrong(
    alloc: Global,
    pool: &mut ColumnPool,
    program: &Program,
    blocks: &Decomposed,
) -> Option<usize>
    requires made { IsDecompositionOf program.now blocks.now }
    requires points { ArePoolPoints program.now blocks.now pool.old }
{
    for at in 0..OFFERS.len() {
        let (halves, want) = OFFERS[at];
        if !becomes(alloc, pool, program, blocks, halves, want) {
            return Some(at);
        }
    }
    let breaks = PointVerdict::BreaksRow {
        row: 0,
        value: Frac::from(4i64),
    };
    if becomes(
        alloc,
        pool,
        program,
        blocks,
        &[2, 2],
        Taken::Dropped(breaks),
    ) {
        None
    } else {
        Some(OFFERS.len())
    }
}

/// The same behind the five points that are held before.
fn wrong_with(alloc: Global, program: &Program, blocks: &Decomposed) -> Option<usize>
    requires { IsDecompositionOf program.now blocks.now }
{
    let Ok(mut pool) = ColumnPool::new(alloc) else {
        return Some(12);
    };
    let wrong = if fill(alloc, &mut pool, program, blocks, 5) {
        first_wrong(alloc, &mut pool, program, blocks)
    } else {
        Some(13)
    };
    drop(pool);
    wrong
}

/// The same with the blocks as they are read.
fn wrong(alloc: Global, program: &Program) -> Option<usize> {
    let Ok(read) = read_blocks(alloc, BLOCKS.as_bytes(), program) else {
        return Some(10);
    };
    let made = Decomposed::new(alloc, program, &read);
    drop(read);
    match made {
        Ok(blocks) => {
            let wrong = wrong_with(alloc, program, &blocks);
            drop(blocks);
            wrong
        }
        Err(_) => Some(11),
    }
}

#[test]
fn points_are_judged(rt: HostRuntime) {
    match read_lp(rt.alloc(), PLAIN.as_bytes()) {
        Ok(program) => {
            let wrong = wrong(rt.alloc(), &program);
            drop(program);
            assert!(rt; wrong == None, "{wrong:?}");
        }
        Err(_) => assert!(rt; false, "the program isn't read"),
    }
}

//! More programs of two blocks, with the points that are held: x1 and x2 are 0 or 1, and 2 x1 + 2 x2 is at most 3; y1
//! and y2 likewise; R3 is the master row, and z, where it is there, of no block.
ghost use Rattle.cip_lagrange.specs.Decompositions.{IsDecompositionOf};
ghost use Rattle.cip_master.specs.KeptMasters.{ArePoolPoints};

use cip_cert::BlockPoint;
use cip_columns::ColumnPool;
use cip_frac::Frac;
use cip_lagrange::Decomposed;
use cip_master::{Taken, take_point};
use cip_model::Program;
use std::alloc::Global;

/// The costs are -2, -1, -2 and -1, and R3 is at most 1.5.
pub const TIGHT: &str =
    "Minimize\n COST: - 2 x1 - x2 - 2 y1 - y2\nSubject To\n R1: 2 x1 + 2 x2 <= 3\n\
    \x20R2: 2 y1 + 2 y2 <= 3\n R3: x1 + x2 + y1 + y2 <= 1.5\nBinaries\n x1 x2 y1 y2\nEnd\n";

/// With a constant of 7 and z from 1 on, which costs -5 and stands in R3, which is at most 3.
pub const OPEN: &str =
    "Minimize\n COST: - 2 x1 - x2 - 2 y1 - y2 - 5 z + 7\nSubject To\n R1: 2 x1 + 2 x2 <= 3\n\
    \x20R2: 2 y1 + 2 y2 <= 3\n R3: x1 + x2 + y1 + y2 + z <= 3\nBounds\n z >= 1\nBinaries\n x1 x2 y1 y2\nEnd\n";

/// With z from 0 to 2 in R3, which is at least 10.
pub const FAR: &str =
    "Minimize\n COST: - 2 x1 - x2 - 2 y1 - y2\nSubject To\n R1: 2 x1 + 2 x2 <= 3\n\
    \x20R2: 2 y1 + 2 y2 <= 3\n R3: x1 + x2 + y1 + y2 + z >= 10\nBounds\n z <= 2\nBinaries\n x1 x2 y1 y2\nEnd\n";

/// With z from 0 on, which costs -5 and stands in no row.
pub const LOOSE: &str =
    "Minimize\n COST: - 2 x1 - x2 - 2 y1 - y2 - 5 z\nSubject To\n R1: 2 x1 + 2 x2 <= 3\n\
    \x20R2: 2 y1 + 2 y2 <= 3\n R3: x1 + x2 + y1 + y2 <= 3\nBinaries\n x1 x2 y1 y2\nEnd\n";

/// Points, each with its block.
static POINTS: [(u32, i64, i64); 6] = [
    (0, 0, 0),
    (0, 1, 0),
    (0, 0, 1),
    (1, 0, 0),
    (1, 1, 0),
    (1, 0, 1),
];

/// A point of so many halves.
pub fn point(alloc: Global, halves: &[i128]) -> Option<BlockPoint> {
    let mut point = BlockPoint {
        values: Vec::new(alloc),
    };
    for count in halves {
        let Ok(value) = Frac::new(*count, 2) else {
            return None;
        };
        if point.values.push(value).is_err() {
            return None;
        }
    }
    Some(point)
}

/// What becomes of a point of a block, where the block is there.
pub fn offered(
    pool: &mut ColumnPool,
    program: &Program,
    blocks: &Decomposed,
    block: u32,
    point: &BlockPoint,
) -> Option<Taken>
    requires made { IsDecompositionOf program.now blocks.now }
    requires points { ArePoolPoints program.now blocks.now pool.old }
    ensures { ArePoolPoints program.now blocks.now pool.new }
{
    if block as usize >= blocks.subproblems.len() {
        return None;
    }
    match take_point(pool, program, blocks, block, point) {
        Ok(taken) => Some(taken),
        Err(_) => None,
    }
}

/// Puts one of the points into a pool.
fn put(
    alloc: Global,
    pool: &mut ColumnPool,
    program: &Program,
    blocks: &Decomposed,
    at: usize,
) -> bool
    requires made { IsDecompositionOf program.now blocks.now }
    requires points { ArePoolPoints program.now blocks.now pool.old }
    ensures { ArePoolPoints program.now blocks.now pool.new }
{
    if at >= POINTS.len() {
        return false;
    }
    let (block, x, y) = POINTS[at];
    match point(alloc, &[2 * x as i128, 2 * y as i128]) {
        Some(point) => {
            let taken = offered(pool, program, blocks, block, &point);
            drop(point);
            matches!(taken, Some(Taken::Offered(_)))
        }
        None => false,
    }
}

/// Puts the first points into a pool, so many.
pub fn fill(
    alloc: Global,
    pool: &mut ColumnPool,
    program: &Program,
    blocks: &Decomposed,
    count: usize,
) -> bool
    requires made { IsDecompositionOf program.now blocks.now }
    requires points { ArePoolPoints program.now blocks.now pool.old }
    ensures { ArePoolPoints program.now blocks.now pool.new }
{
    for at in 0..count {
        if !put(alloc, pool, program, blocks, at) {
            return false;
        }
    }
    true
}

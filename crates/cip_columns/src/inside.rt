//! The points of a block in a box.
ghost use Rattle.std.specs.Prelude.{◌≡◌, ◌==◌, ◌&&◌};
ghost use Rattle.std.specs.Iterator.{YieldsFirstRef, item_count};
ghost use Rattle.cip_columns.specs.ColumnPools.{is_inside, points_inside};

use crate::points::{HeldPoint, is_inside};
use cip_cert::Bounds;
use std::marker::Model;

/// Whether a point that is held is one of a block, in a box of its columns.
fn is_in(held: &HeldPoint, block: u32, bounds: &Bounds) -> bool
    ensures { result ≡ ((held.now.block == block) && is_inside bounds.now held.now.point) }
{
    held.block() == block && is_inside(bounds.as_slice(), held.values())
}

/// Goes through the points of a block in a box, by rising id. Contracts see the points that are left.
#[derive(Drop)]
pub struct Inside<'a> {
    points: &'a [HeldPoint],
    block: u32,
    bounds: &'a Bounds,
}

impl<'a> Model for Inside<'a> {
    ghost use Rattle.std.specs.Prelude.{List};
    ghost use Rattle.cip_columns.specs.PoolPoints.{PoolPoint, pool_points_code};
    ghost use Rattle.cip_columns.specs.ColumnPools.{points_inside};

    ghost Value = { List PoolPoint };

    ghost coded = { pool_points_code };

    ghost view = { λ i. points_inside i.block i.bounds.now i.points.now };
}

impl<'a> Inside<'a> {
    /// Those of these points that are of the block and in the box.
    pub(crate) fn new(points: &'a [HeldPoint], block: u32, bounds: &'a Bounds) -> Inside<'a>
        ensures { result ≡ points_inside block bounds.now points.now }
    {
        Inside {
            points,
            block,
            bounds,
        }
    }
}

impl<'a> Iterator for Inside<'a> {
    type Item = &'a HeldPoint;

    ghost next_gives = { YieldsFirstRef (λ left. left) };

    ghost remaining = { item_count (λ left. left) };

    fn next(&mut self) -> Option<&'a HeldPoint> {
        while let Some((first, others)) = self.points.split_first() {
            self.points = others;
            if is_in(first, self.block, self.bounds) {
                return Some(first);
            }
        }
        None
    }
}

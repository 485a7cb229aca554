//! The pool: it keeps points of blocks, and finds equal ones.
ghost use Rattle.std.specs.Prelude.{◌≡◌, ◌<◌, ◌≤◌, ℕ, [], length, slice_index_or, MatchOption, MatchResult, IfOk};
ghost use Rattle.cip_columns.specs.ColumnPools.{most_points, IsKnown, IsUnknown, AreCounted, points_inside, with_point, IsAdded};
ghost use Rattle.cip_columns.specs.PointPrints.{group_count, group_of};
ghost use Rattle.cip_columns.specs.PointChains.{Skips, AreLinked};

use crate::inside::Inside;
use crate::points::HeldPoint;
use crate::prints::{GROUPS, group_of};
use cip_cert::{BlockPoint, Bounds};
use cip_frac::Frac;
use std::alloc::{AllocError, Global};
use std::marker::Model;

/// The most points that a pool holds.
pub const MOST_POINTS: usize = 65_536;

/// What adding a point came to.
#[derive(Clone, Copy, PartialEq, Eq)]
pub enum Added {
    /// The point is held now, and this is its id.
    New(u32),
    /// The block has an equal point that is held already, with this id.
    Known(u32),
    /// No such point is held, and there is no room for one.
    Full,
}

/// A pool of points of blocks. Contracts see the points that are held, by their ids from 0 up.
#[derive(Drop)]
pub struct ColumnPool {
    alloc: Global,
    points: Vec<HeldPoint>,
    // for each group, the id of its last point and one, or 0
    firsts: Vec<u32>,
    // for each point, the id of the one before it in its group and one, or 0
    links: Vec<u32>,
}

impl Model for ColumnPool {
    ghost use Rattle.std.specs.Prelude.{List};
    ghost use Rattle.cip_columns.specs.PoolPoints.{PoolPoint, pool_points_code};
    ghost use Rattle.cip_columns.specs.PointChains.{IsSoundPool};

    ghost Value = { List PoolPoint };

    ghost coded = { pool_points_code };

    ghost view = { λ p. p.points.items };

    ghost invariant = { λ p. IsSoundPool p.points.items p.firsts.items p.links.items };
}

/// The id of an equal point of a block that is held, if there is one, from the last of its group on.
fn find(points: &[HeldPoint], links: &[u32], first: u32, block: u32, values: &[Frac]) -> Option<u32>
    requires links { length links.now ≡ length points.now }
    requires counted { AreCounted points.now }
    requires first { Skips points.now (group_of block values.now) first (length points.now) }
    requires next { AreLinked points.now links.now }
    ensures { MatchOption result (IsUnknown points.now block values.now) (IsKnown points.now block values.now) }
{
    let mut link = first;
    'chain: while link > 0 {
        let at = (link - 1) as usize;
        if points[at].is(block, values) {
            return Some(link - 1);
        }
        link = links[at];
    }
    None
}

/// A list of so many links to nothing.
fn no_links(alloc: Global, count: usize) -> Result<Vec<u32>, AllocError>
    ensures { IfOk result (λ links. (length links.items ≡ count)
        × ((k : ℕ) → slice_index_or links.items k 0 ≡ 0)) }
{
    Ok(vec![in alloc; 0u32; count]?)
}

impl ColumnPool {
    /// A pool without points; `Err` where the memory for its groups was refused.
    pub fn new(alloc: Global) -> Result<ColumnPool, AllocError>
        ensures { IfOk result (λ pool. pool ≡ []) }
    {
        let firsts = no_links(alloc, GROUPS)?;
        Ok(ColumnPool {
            alloc,
            points: Vec::new(alloc),
            firsts,
            links: Vec::new(alloc),
        })
    }

    /// The points that are held, by their ids.
    pub fn points(&self) -> &[HeldPoint]
        ensures points { result.now ≡ self.now }
        ensures counted { AreCounted self.now }
        ensures few { length self.now ≤ most_points }
    {
        self.points.as_slice()
    }

    /// The points of a block in a box of the block's columns, by rising id. One with another number of values isn't in
    /// it.
    pub fn inside<'a>(&'a self, block: u32, bounds: &'a Bounds) -> Inside<'a>
        ensures { result ≡ points_inside block bounds.now self.now }
    {
        Inside::new(self.points.as_slice(), block, bounds)
    }

    // Puts a point of a block, which is in this group, at the end.
    fn push(&mut self, group: usize, block: u32, values: Vec<Frac>) -> Result<(), AllocError>
        requires group { group ≡ group_of block values.items }
        requires below { group < group_count }
        requires room { length self.old < most_points }
        ensures { MatchResult result
            (λ _. self.new ≡ with_point self.old block values.items)
            (λ _. self.new ≡ self.old) }
    {
        let id = self.points.len() as u32;
        self.points.reserve(1)?;
        self.links.push(self.firsts[group])?;
        self.points.push_reserved(HeldPoint::new(id, block, values));
        self.firsts[group] = id + 1;
        Ok(())
    }

    /// Adds a point of a block. `Known` comes exactly where the block has an equal point that is held; else `Full`
    /// exactly where the pool holds `MOST_POINTS` points; else the point is `New`. `Err` comes where a growth was
    /// refused. All but `New` leave the pool as it was. It takes the time of the points in one of 65,536 groups, and
    /// not of all.
    pub fn add(&mut self, block: u32, point: &BlockPoint) -> Result<Added, AllocError>
        ensures { MatchResult result
            (IsAdded self.old block point.now.values.items self.new)
            (λ _. self.new ≡ self.old) }
    {
        let values = point.values.as_slice();
        let group = group_of(block, values);
        let points = self.points.as_slice();
        let links = self.links.as_slice();
        if let Some(id) = find(points, links, self.firsts[group], block, values) {
            return Ok(Added::Known(id));
        }
        if self.points.len() == MOST_POINTS {
            return Ok(Added::Full);
        }
        let id = self.points.len() as u32;
        let values = Vec::from_slice(self.alloc, values)?;
        self.push(group, block, values)?;
        Ok(Added::New(id))
    }
}

//! The pool of columns.
use cip_cert::BlockPoint;
use cip_columns::{Added, ColumnPool};
use cip_frac::Frac;
use cip_lin::{Bounds, Sides};
use std::alloc::Global;

/// A point with these values.
fn point(alloc: Global, values: &[i64]) -> Option<BlockPoint> {
    let mut point = BlockPoint {
        values: Vec::new(alloc),
    };
    for value in values {
        if point.values.push(Frac::from(*value)).is_err() {
            return None;
        }
    }
    Some(point)
}

/// What adding a point of a block answers.
fn added(alloc: Global, pool: &mut ColumnPool, block: u32, values: &[i64]) -> Option<Added> {
    let point = point(alloc, values)?;
    let added = pool.add(block, &point);
    drop(point);
    match added {
        Ok(added) => Some(added),
        Err(_) => None,
    }
}

/// Two columns from 0 to 1.
fn unit_box(alloc: Global) -> Option<Bounds> {
    let mut bounds = Bounds::new(alloc, 0).ok()?;
    let sides = Sides {
        low: Some(Frac::zero()),
        high: Some(Frac::one()),
    };
    if bounds.push(sides).is_ok() && bounds.push(sides).is_ok() {
        Some(bounds)
    } else {
        drop(bounds);
        None
    }
}

/// Whether points of two blocks get ids, and equal ones those that they have.
fn get_ids(alloc: Global, pool: &mut ColumnPool) -> bool {
    if added(alloc, pool, 0, &[1, 0]) != Some(Added::New(0)) {
        return false;
    }
    if added(alloc, pool, 0, &[1, 0]) != Some(Added::Known(0)) {
        return false;
    }
    if added(alloc, pool, 1, &[1, 0]) != Some(Added::New(1)) {
        return false;
    }
    if added(alloc, pool, 0, &[2, 0]) != Some(Added::New(2)) {
        return false;
    }
    added(alloc, pool, 0, &[1, 0, 0]) == Some(Added::New(3))
}

/// Whether a box shows the first point of the first block alone.
fn shows_first(pool: &ColumnPool, bounds: &Bounds) -> bool {
    let mut inside = pool.inside(0, bounds);
    match inside.next() {
        Some(held) => held.id() == 0 && inside.next().is_none(),
        None => false,
    }
}

/// Whether points of two blocks get ids, equal ones those that they have, and a box shows those that are in it.
fn is_right(alloc: Global, pool: &mut ColumnPool) -> bool {
    if !get_ids(alloc, pool) {
        return false;
    }
    let Some(bounds) = unit_box(alloc) else {
        return false;
    };
    let is_so = shows_first(pool, &bounds);
    drop(bounds);
    is_so
}

#[test]
fn points_are_pooled(rt: HostRuntime) {
    match ColumnPool::new(rt.alloc()) {
        Ok(mut pool) => {
            let right = is_right(rt.alloc(), &mut pool);
            drop(pool);
            assert!(rt; right);
        }
        Err(_) => assert!(rt; false, "there is no memory"),
    }
}

//! The rows of a pool that a node's linear program takes.
ghost use Rattle.std.specs.Prelude.{◌≡◌, map, length, IfOk};
ghost use Rattle.cip_relax.specs.NodeRows.{usable_rows, usable_ids};

use cip_lin::{Bounds, Row};
use cip_rows::RowPool;
use std::alloc::{AllocError, Global};

/// The rows of a pool that may be used in a box, which are lent, and their ids; beside them the pool and the box.
#[derive(Drop)]
pub(crate) struct UsableRows<'a> {
    /// The rows.
    pub(crate) rows: Vec<&'a Row>,
    /// Their ids.
    pub(crate) ids: Vec<u64>,
    /// The pool.
    pub(crate) pool: &'a RowPool,
    /// The box.
    pub(crate) bounds: &'a Bounds,
}

impl<'a> UsableRows<'a> {
    /// The rows of a pool that may be used in a box, by rising id. None is copied, and where there is none no memory is
    /// taken. `Err` comes where memory was refused.
    pub(crate) fn gather(
        alloc: Global,
        pool: &'a RowPool,
        bounds: &'a Bounds,
    ) -> Result<UsableRows<'a>, AllocError>
        requires { length bounds.now ≡ pool.now.columns }
        ensures rows { IfOk result
            (λ usable. map (λ row. row.now) usable.rows.items ≡ usable_rows bounds.now pool.now.rows) }
        ensures ids { IfOk result (λ usable. usable.ids.items ≡ usable_ids bounds.now pool.now.rows) }
        ensures pool { IfOk result (λ usable. usable.pool.now ≡ pool.now) }
        ensures bounds { IfOk result (λ usable. usable.bounds.now ≡ bounds.now) }
    {
        let mut rows = Vec::new(alloc);
        let mut ids = Vec::new(alloc);
        for kept in pool.usable(bounds) {
            rows.push(&kept.row)?;
            ids.push(kept.id)?;
        }
        Ok(UsableRows {
            rows,
            ids,
            pool,
            bounds,
        })
    }
}

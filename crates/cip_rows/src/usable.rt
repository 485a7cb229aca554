//! The rows of a pool that may be used in a box.
ghost use Rattle.std.specs.Iterator.{YieldsFirstRef, item_count};

use cip_cert::{Bounds, PoolRow};
use std::marker::Model;

/// Goes through the rows whose scope holds a box, by rising id. Contracts see the rows that are left.
#[derive(Drop)]
pub struct Usable<'a> {
    pub(crate) rows: &'a [PoolRow],
    pub(crate) bounds: &'a Bounds,
}

impl<'a> Model for Usable<'a> {
    ghost use Rattle.std.specs.Prelude.{List};
    ghost use Rattle.cip_cert.specs.declared.rows.PoolRow.{PoolRow};
    ghost use Rattle.cip_rows.specs.RowPools.{usable_in, HaveScopesLike};
    ghost use Rattle.cip_rows.specs.PoolCodes.{pool_rows_code};

    ghost Value = { List PoolRow };

    ghost coded = { pool_rows_code };

    ghost view = { λ u. usable_in u.bounds.now u.rows.now };

    ghost invariant = { λ u. HaveScopesLike u.bounds.now u.rows.now };
}

impl<'a> Iterator for Usable<'a> {
    type Item = &'a PoolRow;

    ghost next_gives = { YieldsFirstRef (λ left. left) };

    ghost remaining = { item_count (λ left. left) };

    fn next(&mut self) -> Option<&'a PoolRow> {
        while let Some((first, others)) = self.rows.split_first() {
            self.rows = others;
            if self.bounds.inside(&first.scope) {
                return Some(first);
            }
        }
        None
    }
}

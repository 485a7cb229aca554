//! The pool of rows.
use crate::single_calls::{is_half_a_row, put_columns};
use crate::splits::no_combo;
use cip_cert::{Scratch, rests_on_cutoff};
use cip_frac::Frac;
use cip_lin::{Bounds, Combo, RowId, RowMultiple};
use cip_rows::{Added, RowPool};
use std::alloc::Global;

/// A pool, a row that is added to it, and two boxes of five columns: from 0 to 1, and from 0 to 2.
#[derive(Drop)]
struct Pooled {
    pool: RowPool,
    row: Scratch,
    narrow: Bounds,
    wide: Bounds,
}

/// Two boxes of no columns.
fn two_boxes(alloc: Global) -> Option<(Bounds, Bounds)> {
    let Ok(narrow) = Bounds::new(alloc, 0) else {
        return None;
    };
    let Ok(wide) = Bounds::new(alloc, 0) else {
        drop(narrow);
        return None;
    };
    Some((narrow, wide))
}

/// An empty pool, and no coefficient yet.
fn empty_pool(alloc: Global) -> Option<Pooled> {
    let Ok(row) = Scratch::new(alloc, 5) else {
        return None;
    };
    let Some((narrow, wide)) = two_boxes(alloc) else {
        drop(row);
        return None;
    };
    Some(Pooled {
        pool: RowPool::new(alloc, 5),
        row,
        narrow,
        wide,
    })
}

/// What adding a row comes to, which rests on the cutoff row or doesn't, where its columns are the pool's and there is
/// memory.
fn added(
    pool: &mut RowPool,
    scratch: &Scratch,
    least: i64,
    scope: &Bounds,
    rests: bool,
) -> Option<Added> {
    let columns = pool.columns();
    if scratch.row.entries().len() != columns || scope.len() != columns {
        return None;
    }
    pool.add(scratch, Frac::from(least), scope, rests).ok()
}

/// How many rows may be used in a box, where its columns are the pool's.
fn usable(pool: &RowPool, bounds: &Bounds) -> Option<usize> {
    if bounds.len() != pool.columns() {
        return None;
    }
    let mut count = 0_usize;
    for _ in pool.usable(bounds) {
        count = count.saturating_add(1);
    }
    Some(count)
}

impl Pooled {
    /// Gives the boxes their columns.
    fn is_filled(&mut self) -> bool {
        put_columns(&mut self.narrow, 1).is_ok() && put_columns(&mut self.wide, 2).is_ok()
    }

    /// What adding the row comes to, with the narrow box as its scope.
    fn is_added(&mut self, least: i64, want: Added) -> bool {
        added(&mut self.pool, &self.row, least, &self.narrow, false) == Some(want)
    }

    /// The same with the wide one.
    fn is_added_widely(&mut self, least: i64, want: Added) -> bool {
        added(&mut self.pool, &self.row, least, &self.wide, false) == Some(want)
    }

    /// The same as a row that rests.
    fn is_added_as_resting(&mut self, least: i64, want: Added) -> bool {
        added(&mut self.pool, &self.row, least, &self.narrow, true) == Some(want)
    }

    /// How many rows may be used in the wide and in the narrow box.
    fn are_usable(&self, wide: usize, narrow: usize) -> bool {
        usable(&self.pool, &self.wide) == Some(wide)
            && usable(&self.pool, &self.narrow) == Some(narrow)
    }

    /// A row is known inside its scope, and new in a wider one.
    fn knows_rows(&mut self, alloc: Global) -> bool {
        self.is_filled()
            && is_half_a_row(alloc, &mut self.row)
            && self.is_added(-1, Added::New(0))
            && self.is_added(-1, Added::Known(0))
            && self.are_usable(0, 1)
            && self.is_added_widely(-1, Added::New(1))
            && self.are_usable(1, 2)
    }

    /// 8,192 rows are new.
    fn fills(&mut self) -> bool {
        for number in 0..8192_u32 {
            let new = Added::New(u64::from(number));
            if !self.is_added(i64::from(number), new) {
                return false;
            }
        }
        true
    }

    /// There are 4,096 rows, of which the first has the number 4,097.
    fn is_half_left(&self) -> bool {
        let rows = self.pool.rows();
        rows.len() == 4096 && rows[0].id == 4097
    }

    /// A full pool takes a row once another one is gone, and has lost the older half when it has aged.
    fn loses_rows(&mut self) -> bool {
        let is_full = self.is_filled()
            && self.fills()
            && self.is_added(8192, Added::Full)
            && self.is_added(5, Added::Known(5));
        self.pool.retire(5);
        let is_taken = self.is_added(5, Added::New(8192));
        self.pool.age();
        is_full && is_taken && self.is_half_left() && self.is_added(7, Added::New(8193))
    }
}

impl Pooled {
    /// Three rows, of which the second rests.
    fn has_three(&mut self) -> bool {
        self.is_filled()
            && self.is_added(1, Added::New(0))
            && self.is_added_as_resting(2, Added::New(1))
            && self.is_added(3, Added::New(2))
    }

    /// Two are left, in their order.
    fn is_released(&mut self) -> bool {
        self.pool.release();
        let rows = self.pool.rows();
        rows.len() == 2 && rows[0].id == 0 && rows[1].id == 2
    }

    /// The row that rests is let go, and the others are known as before.
    fn releases_rows(&mut self) -> bool {
        self.has_three()
            && self.is_released()
            && self.is_added(2, Added::New(3))
            && self.is_added(3, Added::Known(2))
    }

    /// Whether a combination that cites this row rests.
    fn rests(&self, combo: &mut Combo, row: RowId) -> Option<bool> {
        let factor = Frac::one();
        combo.rows.push(RowMultiple { row, factor }).ok()?;
        Some(rests_on_cutoff(self.pool.rows(), combo))
    }

    /// A combination of nothing rests once it cites the row that does.
    fn tells_resting(&mut self, combo: &mut Combo) -> bool {
        self.has_three()
            && self.rests(combo, RowId::Own(1)) == Some(false)
            && self.rests(combo, RowId::Pool(2)) == Some(false)
            && self.rests(combo, RowId::Pool(1)) == Some(true)
            && self.rests(combo, RowId::Own(0)) == Some(true)
    }

    /// A combination rests once it cites the row that does.
    fn tells_resting_rows(&mut self, alloc: Global) -> bool {
        let mut combo = no_combo(alloc);
        let is_so = self.tells_resting(&mut combo);
        drop(combo);
        is_so
    }
}

impl Pooled {
    /// A combination rests that cites the cutoff row.
    fn tells_cutoff(&mut self, alloc: Global) -> bool {
        let mut combo = no_combo(alloc);
        let is_so = self.rests(&mut combo, RowId::Cutoff) == Some(true);
        drop(combo);
        is_so
    }

    /// What a test asks of an empty pool.
    fn is_so(&mut self, alloc: Global, what: What) -> bool {
        match what {
            What::KnowsRows => self.knows_rows(alloc),
            What::LosesRows => self.loses_rows(),
            What::ReleasesRows => self.releases_rows(),
            What::TellsRestingRows => self.tells_resting_rows(alloc),
            What::TellsCutoff => self.tells_cutoff(alloc),
        }
    }
}

/// What an empty pool is asked.
#[derive(Clone, Copy)]
enum What {
    KnowsRows,
    LosesRows,
    ReleasesRows,
    TellsRestingRows,
    TellsCutoff,
}

/// Asks an empty pool.
fn is_so(alloc: Global, what: What) -> bool {
    match empty_pool(alloc) {
        Some(mut pooled) => {
            let is_so = pooled.is_so(alloc, what);
            drop(pooled);
            is_so
        }
        None => false,
    }
}

#[test]
fn resting_rows_are_told_and_let_go(rt: HostRuntime) {
    assert!(rt; is_so(rt.alloc(), What::ReleasesRows));
    assert!(rt; is_so(rt.alloc(), What::TellsRestingRows));
    assert!(rt; is_so(rt.alloc(), What::TellsCutoff));
}

#[test]
fn a_row_is_known_inside_its_scope(rt: HostRuntime) {
    assert!(rt; is_so(rt.alloc(), What::KnowsRows));
}

#[test]
fn a_full_pool_is_full_until_rows_go(rt: HostRuntime) {
    assert!(rt; is_so(rt.alloc(), What::LosesRows));
}

//! The pool: it keeps rows with their scopes, finds equal ones, and lets the oldest go.
ghost use Rattle.std.specs.Prelude.{◌≡◌, ◌<◌, ◌==◌, Bool, [], length, vec_len, vec_capacity, not, drop, ◌-◌, MatchOption, MatchResult, false};
ghost use Rattle.std.specs.List.{filter};
ghost use Rattle.cip_problem.specs.Activity.{StandsBelow};
ghost use Rattle.cip_problem.specs.Cuts.{row_of};
ghost use Rattle.cip_cert.specs.Resting.{released};
ghost use Rattle.cip_rows.specs.Mixed.{fingerprint};
ghost use Rattle.cip_rows.specs.RowIndex.{AreSorted, IsEntered};
ghost use Rattle.cip_rows.specs.RowPools.{IsSoundPool, IsUnknown, usable_in, is_full, kept_pool_rows};
ghost use Rattle.cip_rows.specs.Adding.{IsAdded};

use crate::built::row_from;
use crate::fingerprints::fingerprint;
use crate::index::{Entry, first_from, known};
use crate::limits::{KEPT_POOL_ROWS, MOST_IDS, MOST_POOL_ROWS};
use crate::usable::Usable;
use cip_cert::{Bounds, Frac, PoolRow, Row, Scratch};
use std::alloc::{AllocError, Global};
use std::marker::Model;

/// What adding a row came to.
#[derive(Clone, Copy, PartialEq, Eq)]
pub enum Added {
    /// The row is held now, and this is its id.
    New(u64),
    /// An equal row whose scope holds this one is held already, with this id.
    Known(u64),
    /// No such row is held, and there is no room for a row or no id left.
    Full,
}

/// A pool of rows over so many columns. Contracts see the number of columns, the rows that are held by rising id, and
/// the id that the next new row gets.
#[derive(Drop)]
pub struct RowPool {
    alloc: Global,
    columns: usize,
    rows: Vec<PoolRow>,
    next: u64,
    entries: Vec<Entry>,
}

impl Model for RowPool {
    ghost use Rattle.cip_rows.specs.PoolCodes.{pool_code};
    ghost use Rattle.cip_rows.specs.RowIndex.{IsIndex};
    ghost use Rattle.cip_rows.specs.RowPools.{Pool, IsSoundPool};

    ghost Value = { Pool };

    ghost coded = { pool_code };

    ghost view = { λ p. record { columns = p.columns; rows = p.rows.items; next = p.next } };

    ghost invariant = { λ p. IsSoundPool (record { columns = p.columns; rows = p.rows.items; next = p.next })
        × IsIndex p.rows.items p.entries.items };
}

/// Makes room for another row, whose entry is put into the index, and copies its scope. `Err` comes where memory was
/// refused; rows and entries are as they were then.
fn entered(
    alloc: Global,
    rows: &mut Vec<PoolRow>,
    entries: &mut Vec<Entry>,
    entry: Entry,
    scope: &Bounds,
) -> Result<Bounds, AllocError>
    requires { AreSorted entries.old.items }
    ensures rows { rows.new.items ≡ rows.old.items }
    ensures entered { MatchResult result
        (λ copy. (copy ≡ scope.now) × (vec_len rows.new < vec_capacity rows.new)
        × IsEntered entries.old.items entry entries.new.items)
        (λ _. entries.new.items ≡ entries.old.items) }
{
    rows.reserve(1)?;
    let copy = scope.copied(alloc)?;
    let place = first_from(entries.as_slice(), entry.print);
    match entries.insert(place, entry) {
        Ok(()) => Ok(copy),
        Err(_) => Err(AllocError),
    }
}

impl RowPool {
    /// A pool without rows, for boxes of so many columns.
    pub fn new(alloc: Global, columns: usize) -> RowPool
        ensures { result ≡ record { columns = columns; rows = []; next = 0 } }
    {
        RowPool {
            alloc,
            columns,
            rows: Vec::new(alloc),
            next: 0,
            entries: Vec::new(alloc),
        }
    }

    /// The number of columns.
    pub fn columns(&self) -> usize
        ensures { result ≡ self.now.columns }
    {
        self.columns
    }

    /// The rows that are held, by rising id.
    pub fn rows(&self) -> &[PoolRow]
        ensures rows { result.now ≡ self.now.rows }
        ensures kept { IsSoundPool self.now }
    {
        self.rows.as_slice()
    }

    // Whether there is no room for a row, or no id left.
    fn is_full(&self) -> bool
        ensures { result ≡ is_full self.now }
    {
        self.rows.len() == MOST_POOL_ROWS || self.next == MOST_IDS
    }

    // Why a row, which has this fingerprint, isn't added, if it isn't: an equal one whose scope holds its own is held,
    // or there is no room.
    fn refused(&self, print: u64, row: &Row, scope: &Bounds) -> Option<Added>
        requires print { print ≡ fingerprint row.now }
        requires columns { length scope.now ≡ self.now.columns }
        ensures { MatchOption result
            (IsUnknown self.now.rows row.now scope.now × (is_full self.now ≡ false))
            (λ added. (rests : Bool) → IsAdded self.now row.now scope.now rests self.now added) }
    {
        let rows = self.rows.as_slice();
        match known(rows, self.entries.as_slice(), print, row, scope) {
            Some(id) => Some(Added::Known(id)),
            None if self.is_full() => Some(Added::Full),
            None => None,
        }
    }

    // Puts a row, which has this fingerprint, with a copy of its scope at the end, and its entry into the index.
    fn push(
        &mut self,
        print: u64,
        row: Row,
        scope: &Bounds,
        rests: bool,
    ) -> Result<Added, AllocError>
        requires print { print ≡ fingerprint row }
        requires columns { length scope.now ≡ self.old.columns }
        requires stands { StandsBelow self.old.columns row.terms }
        requires new { IsUnknown self.old.rows row scope.now × (is_full self.old ≡ false) }
        ensures added { MatchResult result (IsAdded self.old row scope.now rests self.new) (λ _. self.new ≡ self.old) }
        ensures columns { self.new.columns ≡ self.old.columns }
    {
        let id = self.next;
        let entry = Entry { print, id, rests };
        let (rows, entries) = (&mut self.rows, &mut self.entries);
        match entered(self.alloc, rows, entries, entry, scope) {
            Ok(scope) => {
                self.rows.push_reserved(PoolRow {
                    id,
                    row,
                    scope,
                    rests,
                });
                self.next += 1;
                Ok(Added::New(id))
            }
            Err(_) => {
                drop(row);
                Err(AllocError)
            }
        }
    }

    /// Adds the row that says, in boxes inside `scope`, that the sum of the products of the coefficients, which stand
    /// in the scratch, is at least `least`; it is kept as one that rests on the cutoff row where `rests` says so, which
    /// `rests_on_cutoff` tells of the combination that it was derived by.
    /// `Known` comes exactly where an equal row whose scope holds `scope` is held; else `Full` exactly where the pool
    /// holds `MOST_POOL_ROWS` rows or has given `MOST_IDS` ids; else the row is `New`. `Err` comes where a growth was
    /// refused. All but `New` leave the pool as it was.
    pub fn add(
        &mut self,
        scratch: &Scratch,
        least: Frac,
        scope: &Bounds,
        rests: bool,
    ) -> Result<Added, AllocError>
        requires coefficients { length scratch.now.row.entries ≡ self.old.columns }
        requires columns { length scope.now ≡ self.old.columns }
        ensures added { MatchResult result
            (IsAdded self.old (row_of (record { coefficients = scratch.now.row.entries; least = least }))
            scope.now rests self.new)
            (λ _. self.new ≡ self.old) }
        ensures columns { self.new.columns ≡ self.old.columns }
    {
        let Ok(row) = row_from(self.alloc, scratch.row.entries(), least) else {
            return Err(AllocError);
        };
        let print = fingerprint(&row);
        match self.refused(print, &row, scope) {
            Some(added) => {
                drop(row);
                Ok(added)
            }
            None => self.push(print, row, scope, rests),
        }
    }

    /// The rows whose scope holds this box, of as many columns as the pool's, by rising id.
    pub fn usable<'a>(&'a self, bounds: &'a Bounds) -> Usable<'a>
        requires { length bounds.now ≡ self.now.columns }
        ensures { result ≡ usable_in bounds.now self.now.rows }
    {
        Usable {
            rows: self.rows.as_slice(),
            bounds,
        }
    }

    /// Takes out the row with this id, if it is held.
    pub fn retire(&mut self, id: u64)
        ensures { self.new ≡ record self.old { rows = filter (λ kept. not (kept.id == id)) self.old.rows } }
    {
        self.rows.retain(|kept| kept.id != id);
        self.entries.retain(|entry| entry.id != id);
    }

    /// Takes out the rows that rest on the cutoff row, for where the cost held is let go. The others stay as they are,
    /// in their order.
    pub fn release(&mut self)
        ensures { self.new ≡ record self.old { rows = released self.old.rows } }
    {
        self.rows.retain(|kept| !kept.rests);
        self.entries.retain(|entry| !entry.rests);
    }

    /// Takes out the rows of least id, until at most `KEPT_POOL_ROWS` are held.
    pub fn age(&mut self)
        ensures { self.new ≡ record self.old { rows = drop (length self.old.rows - kept_pool_rows) self.old.rows } }
    {
        let count = self.rows.len();
        if count <= KEPT_POOL_ROWS {
            return;
        }
        self.rows.rotate_left(count - KEPT_POOL_ROWS);
        self.rows.truncate(KEPT_POOL_ROWS);
        let least = self.rows[0].id;
        self.entries.retain(|entry| least <= entry.id);
    }
}

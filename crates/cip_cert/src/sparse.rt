//! A row of coefficients that is cleared and walked over by the columns that were touched.
ghost use Rattle.std.specs.Prelude.{◌≡◌, ◌≤◌, ◌<◌, ◌*◌, [], vec_len, length, replicate, slice_set, IfOk};
ghost use Rattle.std.specs.Ordering.{nat_cmp};
ghost use Rattle.std.specs.Vec.{vec_capacity};
ghost use Rattle.std.specs.List.Sorted.{IsSorted};
ghost use Rattle.cip_rational.specs.Rational.{zeroℚ};
ghost use Rattle.cip_problem.specs.Limits.{most_columns};
ghost use Rattle.cip_cert.specs.Touched.{Tells};

use cip_frac::Frac;
use std::alloc::{AllocError, Global};
use std::marker::Model;

/// A row with one coefficient for each column, and the columns that were touched since it was cleared.
#[derive(Drop)]
pub struct SparseRow {
    entries: Vec<Frac>,
    touched: Vec<u32>,
}

impl Model for SparseRow {
    ghost use Rattle.cip_cert.specs.Touched.{Touched, touched_code};

    ghost Value = { Touched };

    ghost coded = { touched_code };

    ghost use Rattle.cip_cert.specs.SparseRows.{shown, IsSound};

    ghost view = { shown };

    ghost invariant = { IsSound };
}

// Puts each column with a coefficient that isn't 0 into the list.
fn scan(entries: &[Frac], touched: &mut Vec<u32>)
    requires few { length entries.now ≤ most_columns }
    requires empty { touched.old.items ≡ [] }
    requires room { length entries.now ≤ vec_capacity touched.old }
    ensures tells { Tells entries.now touched.new.items }
    ensures short { vec_len touched.new ≤ length entries.now }
    ensures capacity { vec_capacity touched.new ≡ vec_capacity touched.old }
{
    for at in 0..entries.len() {
        if !entries[at].is_zero() {
            touched.push_reserved(at as u32);
        }
    }
}

// Sets these columns' coefficients to 0.
fn wipe(entries: &mut [Frac], touched: &[u32])
    requires { Tells entries.old touched.now }
    ensures { entries.new ≡ replicate (length entries.old) zeroℚ }
{
    for column in touched {
        entries[*column as usize] = Frac::zero();
    }
}

impl SparseRow {
    /// A row of so many columns, at most 65,536, with coefficients 0; `Err` where the memory for it was refused.
    pub fn new(alloc: Global, columns: usize) -> Result<SparseRow, AllocError>
        requires { columns ≤ most_columns }
        ensures { IfOk result (λ row. row.entries ≡ replicate columns zeroℚ) }
    {
        let entries = vec![in alloc; Frac::zero(); columns]?;
        let touched = Vec::with_capacity(alloc, 2 * columns)?;
        Ok(SparseRow { entries, touched })
    }

    /// The coefficients by column.
    pub fn entries(&self) -> &[Frac]
        ensures entries { result.now ≡ self.now.entries }
        ensures few { length self.now.entries ≤ most_columns }
    {
        self.entries.as_slice()
    }

    /// The columns that were touched: each with a coefficient that isn't 0 is among them.
    pub fn touched(&self) -> &[u32]
        ensures touched { result.now ≡ self.now.touched }
        ensures tells { Tells self.now.entries self.now.touched }
    {
        self.touched.as_slice()
    }

    /// Sets all coefficients to 0, in time by the columns that were touched. No column is touched then.
    pub fn clear(&mut self)
        ensures entries { self.new.entries ≡ replicate (length self.old.entries) zeroℚ }
        ensures touched { self.new.touched ≡ [] }
    {
        wipe(self.entries.as_mut_slice(), self.touched.as_slice());
        self.touched.clear();
    }

    // Leaves room to touch a column.
    fn make_room(&mut self)
        requires { 0 < length self.old.entries }
        ensures entries { self.new.entries ≡ self.old.entries }
        ensures room { length self.new.touched < 2 * length self.new.entries }
    {
        if self.touched.len() < 2 * self.entries.len() {
            return;
        }
        self.touched.clear();
        scan(self.entries.as_slice(), &mut self.touched);
    }

    /// Sets the coefficient of a column, in constant time but for one call in as many as there are columns.
    pub fn set(&mut self, column: u32, value: Frac)
        requires { column < length self.old.entries }
        ensures { self.new.entries ≡ slice_set self.old.entries column value }
    {
        self.make_room();
        self.touched.push_reserved(column);
        self.entries[column as usize] = value;
    }

    /// Puts the touched columns in rising order, perhaps with some more than once.
    pub fn sort(&mut self)
        ensures entries { self.new.entries ≡ self.old.entries }
        ensures sorted { IsSorted nat_cmp self.new.touched }
        ensures tells { Tells self.new.entries self.new.touched }
    {
        self.touched.sort_unstable();
    }
}

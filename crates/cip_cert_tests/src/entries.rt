//! Linear programs by their entries.
ghost use Rattle.std.specs.Prelude.{◌≡◌, ◌<◌, true};
ghost use Rattle.cip_dict.specs.Entries.{AreWithin};

use cip_dict::{Dict, Spare};
use cip_frac::Frac;
use cip_lin::Sides;
use std::alloc::Global;

/// A row, a column and the coefficient there.
pub(crate) type Entry = (u32, u32, Frac);

#[derive(Drop)]
pub(crate) struct Program {
    pub(crate) entries: Vec<Entry>,
    pub(crate) rows: Vec<Sides>,
    pub(crate) columns: Vec<Sides>,
    pub(crate) costs: Vec<Frac>,
}

fn is_within(entry: Entry, rows: usize, columns: usize) -> bool
    ensures { result ≡ true → (entry.0 < rows) × (entry.1 < columns) }
{
    (entry.0 as usize) < rows && (entry.1 as usize) < columns
}

fn are_within(entries: &[Entry], rows: usize, columns: usize) -> bool
    ensures { result ≡ true → AreWithin rows columns entries.now }
{
    entries.iter().all(|entry| is_within(*entry, rows, columns))
}

impl Program {
    pub(crate) fn new(alloc: Global) -> Program {
        Program {
            entries: Vec::new(alloc),
            rows: Vec::new(alloc),
            columns: Vec::new(alloc),
            costs: Vec::new(alloc),
        }
    }

    /// The first state of a program of fewer than 100 rows and columns.
    pub(crate) fn first(&self, alloc: Global, spare: &mut Spare) -> Option<Dict> {
        let entries = self.entries.as_slice();
        let rows = self.rows.as_slice();
        let columns = self.columns.as_slice();
        let costs = self.costs.as_slice();
        if rows.len() >= 100 || columns.len() >= 100 || costs.len() != columns.len() {
            return None;
        }
        if !are_within(entries, rows.len(), columns.len()) {
            return None;
        }
        Dict::first(alloc, spare, entries, rows, columns, costs).ok()
    }
}

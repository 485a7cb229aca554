//! What checks are asked, and what they answer.
ghost use Rattle.std.specs.Prelude.{◌≡◌, ◌<◌, IsTrue, length, All, IfSome};
ghost use Rattle.cip_problem.specs.Activity.{StandsBelow};
ghost use Rattle.cip_cert.specs.Lent.{lent_of, Fits};

use crate::splits::SplitRoom;
use cip_cert::{
    CutFault, Rows, Scratch, SplitCut, SplitFormFault, derive, empties, lower_bound, reduction,
};
use cip_frac::Frac;
use cip_lin::{Bounds, Combo, Row, Side};
use cip_rows::RowPool;
use cip_split::split_row;
use std::alloc::{AllocError, Global};

/// Rows, a box and a combination, and what the checks are asked beside.
#[derive(Drop)]
pub struct Asked {
    pub own: Vec<Row>,
    pub pool: RowPool,
    pub cutoff: Option<Row>,
    pub whole: Vec<bool>,
    pub bounds: Bounds,
    pub combo: Combo,
    pub round: bool,
    pub costs: Vec<Frac>,
    pub column: u32,
    pub side: Side,
    pub value: Frac,
}

/// Whether a row stands on the first so many columns.
fn stands(row: &Row, columns: usize) -> bool
    ensures { IsTrue result → StandsBelow columns row.now.terms }
{
    row.terms().iter().all(|term| (term.col as usize) < columns)
}

/// Whether each of these rows does.
fn all_stand(rows: &[Row], columns: usize) -> bool
    ensures { IsTrue result → All (λ row. StandsBelow columns row.terms) rows.now }
{
    rows.iter().all(|row| stands(row, columns))
}

/// Whether a row does, if there is one.
fn one_stands(row: &Option<Row>, columns: usize) -> bool
    ensures { IsTrue result → IfSome row.now (λ row. StandsBelow columns row.terms) }
{
    match row {
        Some(row) => stands(row, columns),
        None => true,
    }
}

impl Asked {
    /// Nothing yet, with a pool over so many columns.
    pub fn new(alloc: Global, columns: usize) -> Result<Asked, AllocError> {
        let bounds = Bounds::new(alloc, 0)?;
        Ok(Asked {
            own: Vec::new(alloc),
            pool: RowPool::new(alloc, columns),
            cutoff: None,
            whole: Vec::new(alloc),
            bounds,
            combo: Combo {
                rows: Vec::new(alloc),
                lows: Vec::new(alloc),
                highs: Vec::new(alloc),
            },
            round: false,
            costs: Vec::new(alloc),
            column: 0,
            side: Side::Low,
            value: Frac::zero(),
        })
    }

    /// The rows by their names, where all of them fit the box.
    fn rows(&self) -> Option<Rows<'_>>
        ensures fits { IfSome result (λ rows. Fits (length self.now.bounds) (lent_of rows)) }
        ensures flags { IfSome result (λ rows. length rows.whole.now ≡ length self.now.bounds) }
    {
        let columns = self.bounds.len();
        if self.pool.columns() != columns || self.whole.len() != columns {
            return None;
        }
        if !all_stand(self.own.as_slice(), columns) || !one_stands(&self.cutoff, columns) {
            return None;
        }
        Some(Rows {
            own: self.own.as_slice(),
            pool: self.pool.rows(),
            cutoff: &self.cutoff,
            whole: self.whole.as_slice(),
        })
    }

    /// What `derive` answers, where it may be asked.
    pub fn derived(&self, scratch: &mut Scratch) -> Option<Result<Frac, CutFault>> {
        let rows = self.rows()?;
        if scratch.row.entries().len() < self.bounds.len() {
            return None;
        }
        Some(derive(&rows, &self.bounds, &self.combo, self.round, scratch))
    }

    /// What `lower_bound` answers, where it may be asked.
    pub fn bounded(&self, scratch: &mut Scratch) -> Option<Result<Frac, CutFault>> {
        let rows = self.rows()?;
        let columns = self.bounds.len();
        if scratch.row.entries().len() < columns || self.costs.len() != columns {
            return None;
        }
        let costs = self.costs.as_slice();
        Some(lower_bound(&rows, &self.bounds, costs, &self.combo, scratch))
    }

    /// What `empties` answers, where it may be asked.
    pub fn emptied(&self, scratch: &mut Scratch) -> Option<Result<(), CutFault>> {
        let rows = self.rows()?;
        if scratch.row.entries().len() < self.bounds.len() {
            return None;
        }
        Some(empties(&rows, &self.bounds, &self.combo, scratch))
    }

    /// What `reduction` answers, where it may be asked.
    pub fn reduced(&self, scratch: &mut Scratch) -> Option<Result<Frac, CutFault>> {
        let rows = self.rows()?;
        let columns = self.bounds.len();
        if scratch.row.entries().len() < columns || self.column as usize >= columns {
            return None;
        }
        Some(reduction(
            &rows,
            &self.bounds,
            self.column,
            self.side,
            self.value,
            &self.combo,
            scratch,
        ))
    }

    /// What `split_row` answers, where it may be asked.
    pub fn split(
        &self,
        cut: &SplitCut,
        room: &mut SplitRoom,
    ) -> Option<Result<Frac, SplitFormFault>> {
        let rows = self.rows()?;
        let columns = room.first.row.entries().len();
        if columns < self.bounds.len() || room.second.row.entries().len() != columns {
            return None;
        }
        let (first, second) = (&mut room.first, &mut room.second);
        Some(split_row(&rows, &self.bounds, cut, first, second))
    }
}

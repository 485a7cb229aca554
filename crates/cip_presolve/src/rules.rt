//! The rules that look at one row.
ghost use Rattle.std.specs.Prelude.{◌≡◌, ◌<◌, length, IfOk, IfSome};
ghost use Rattle.cip_presolve.specs.NarrowedPrograms.{IsExactStep};
ghost use Rattle.cip_problem.specs.Activity.{StandsBelow};
ghost use Rattle.cip_presolve.specs.RuleEnds.{EndsRightly, IsSingled};

use crate::drafts::Draft;
use crate::extents::{RowSays, row_says};
use crate::fixed_columns::without_fixed;
use crate::single_rows::{one_term, single_sides};
use cip_frac::Frac;
use cip_lin::{Bounds, Row, Sides, Term};
use std::alloc::{AllocError, Global};

/// What a rule comes to.
#[derive(Clone, Copy)]
pub enum Outcome {
    /// The row stays.
    Kept,
    /// The row is gone.
    Gone,
    /// The row is gone, and the sides of this column are stronger.
    Tightened(u32),
    /// No point is feasible.
    NoPoint,
}

/// A column, and sides for it.
#[derive(Clone, Copy)]
pub(crate) struct ColumnSides {
    pub(crate) column: u32,
    pub(crate) sides: Sides,
}

/// Whether one of two sides has a size above 2^100.
pub fn is_far(sides: Sides) -> bool {
    let Ok(most) = Frac::whole(1 << 100) else {
        return false;
    };
    if let Some(low) = sides.low {
        if most < low.abs() {
            return true;
        }
    }
    match sides.high {
        Some(high) => most < high.abs(),
        None => false,
    }
}

/// Whether a term stands on a column with equal sides.
fn has_fixed(terms: &[Term], bounds: &Bounds) -> bool
    requires { StandsBelow (length bounds.now) terms.now }
{
    for term in terms {
        if bounds.is_fixed(term.col) {
            return true;
        }
    }
    false
}

impl Draft {
    /// Drops a row that holds at each point of the box; `NoPoint` where it holds at none.
    #[tactic(auto, using(crate::proofs::Ruled::by_extent))]
    pub fn try_redundant(&mut self, alloc: Global, number: usize) -> Outcome
        requires { number < length self.old.rows }
        ensures step { IsExactStep self.old self.new }
        ensures end { EndsRightly self.new result }
        ensures rows { length self.new.rows ≡ length self.old.rows }
    {
        match row_says(self.row(number), self.bounds()) {
            RowSays::HoldsAlways => {
                self.set_row(number, Row::empty(alloc, None, None));
                Outcome::Gone
            }
            RowSays::HoldsNever => Outcome::NoPoint,
            RowSays::Unclear => Outcome::Kept,
        }
    }

    /// The column of a row of one term, and its sides met with those that the row leaves it; `None` for other rows, for
    /// a semi-continuous column, and where a number isn't in range.
    #[tactic(auto, using(crate::proofs::Singled::single_rows))]
    fn singled(&self, number: usize) -> Option<ColumnSides>
        requires { number < length self.now.rows }
        ensures { IfSome result (λ found. IsSingled self.now number found.column found.sides) }
    {
        let row = self.row(number);
        let Some(term) = one_term(row) else {
            return None;
        };
        if self.is_semi(term.col) {
            return None;
        }
        let Some(single) = single_sides(term.coef, row.low(), row.high(), self.is_whole(term.col))
        else {
            return None;
        };
        Some(ColumnSides {
            column: term.col,
            sides: self.bounds().sides(term.col).met(single),
        })
    }

    /// Takes the sides that a row of one term leaves its column, and drops the row; `NoPoint` where the low side passes
    /// the high one. A whole column takes no side of a size above 2^100.
    #[tactic(auto, using(crate::proofs::Singled::taking))]
    pub fn try_single(&mut self, alloc: Global, number: usize) -> Outcome
        requires { number < length self.old.rows }
        ensures step { IsExactStep self.old self.new }
        ensures end { EndsRightly self.new result }
        ensures rows { length self.new.rows ≡ length self.old.rows }
    {
        let Some(found) = self.singled(number) else {
            return Outcome::Kept;
        };
        if found.sides.cross() {
            return Outcome::NoPoint;
        }
        if self.is_whole(found.column) && is_far(found.sides) {
            return Outcome::Kept;
        }
        self.set_sides(found.column, found.sides);
        self.set_row(number, Row::empty(alloc, None, None));
        Outcome::Tightened(found.column)
    }

    /// Takes the columns with equal sides out of a row. `Err` comes where a growth was refused.
    #[tactic(auto, using(crate::proofs::Singled::cleaning))]
    pub fn clean_row(&mut self, alloc: Global, number: usize) -> Result<(), AllocError>
        requires { number < length self.old.rows }
        ensures step { IsExactStep self.old self.new }
        ensures rows { length self.new.rows ≡ length self.old.rows }
    {
        let row = self.row(number);
        if !has_fixed(row.terms(), self.bounds()) {
            return Ok(());
        }
        match without_fixed(alloc, row, self.bounds()) {
            Ok(Some(row)) => {
                self.set_row(number, row);
                Ok(())
            }
            Ok(None) => Ok(()),
            Err(error) => Err(error),
        }
    }

    /// Tries the rules that look at one row, in their order. `Err` comes where a growth was refused.
    #[tactic(auto, using(crate::proofs::Ruled::chains))]
    pub fn reduce_row(&mut self, alloc: Global, number: usize) -> Result<Outcome, AllocError>
        requires { number < length self.old.rows }
        ensures step { IsExactStep self.old self.new }
        ensures end { IfOk result (EndsRightly self.new) }
        ensures rows { length self.new.rows ≡ length self.old.rows }
    {
        self.clean_row(alloc, number)?;
        match self.try_redundant(alloc, number) {
            Outcome::Kept => Ok(self.try_single(alloc, number)),
            other => Ok(other),
        }
    }
}

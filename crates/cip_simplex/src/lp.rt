//! Linear programs, lent to be solved.
ghost use Rattle.std.specs.Prelude.{◌≡◌, ◌<◌, ◌↔◌, IsTrue, length, slice_index_or};
ghost use Rattle.cip_problem.specs.Activity.{StandsBelow};
ghost use Rattle.cip_problem.specs.LinearProgram.{LinearProgram};
ghost use Rattle.cip_problem.specs.Program.{no_row};
ghost use Rattle.cip_simplex.specs.LpShape as shape;

use cip_dict::Frac;
use cip_lin::{Bounds, Row, Sides, Term};
use std::marker::Model;

/// A linear program: rows, others behind them, the sides of each column, and what each column costs. Nothing is copied.
/// Each column has a cost, the rows stand on its columns, and there are fewer than 2^32 columns and rows.
#[derive(Drop)]
pub struct Lp<'a> {
    rows: &'a [Row],
    others: &'a [&'a Row],
    bounds: &'a Bounds,
    costs: &'a [Frac],
}

impl<'a> Model for Lp<'a> {
    ghost use Rattle.cip_problem.specs.LinearProgram.{LinearProgram};
    ghost use Rattle.cip_simplex.specs.LpCode.{program_code};

    ghost Value = { LinearProgram };

    ghost coded = { program_code };

    ghost use Rattle.cip_simplex.specs.LpShape.{IsSolvable, joined};

    ghost view = { λ lp. record {
      rows = joined lp.rows.now lp.others.now;
      bounds = lp.bounds.now;
      costs = lp.costs.now;
    } };

    ghost invariant = { λ lp. IsSolvable (record {
      rows = joined lp.rows.now lp.others.now;
      bounds = lp.bounds.now;
      costs = lp.costs.now;
    }) };
}

/// Whether terms stand on the first columns, so many.
fn stands_below(terms: &[Term], columns: usize) -> bool
    ensures { IsTrue result ↔ StandsBelow columns terms.now }
{
    for term in terms {
        if term.col as usize >= columns {
            return false;
        }
    }
    true
}

impl<'a> Lp<'a> {
    /// Whether these are a linear program that can be solved: each column has a cost, the rows stand on its columns,
    /// and there are fewer than 2^32 columns and rows.
    pub fn is_solvable(rows: &[Row], bounds: &Bounds, costs: &[Frac]) -> bool
        ensures { IsTrue result
            ↔ shape.IsSolvable (record { rows = rows.now; bounds = bounds.now; costs = costs.now }) }
    {
        let few = bounds.len() < 1 << 32 && rows.len() < (1 << 32) - bounds.len();
        if !few || costs.len() != bounds.len() {
            return false;
        }
        for row in rows {
            if !stands_below(row.terms(), bounds.len()) {
                return false;
            }
        }
        true
    }

    /// The linear program of rows, sides and costs.
    pub fn new(rows: &'a [Row], bounds: &'a Bounds, costs: &'a [Frac]) -> Lp<'a>
        requires { shape.IsSolvable (record { rows = rows.now; bounds = bounds.now; costs = costs.now }) }
        ensures { result ≡ record { rows = rows.now; bounds = bounds.now; costs = costs.now } }
    {
        Lp {
            rows,
            others: &[],
            bounds,
            costs,
        }
    }

    /// The linear program of rows, others behind them, sides and costs.
    pub fn with_others(
        rows: &'a [Row],
        others: &'a [&'a Row],
        bounds: &'a Bounds,
        costs: &'a [Frac],
    ) -> Lp<'a>
        requires { shape.IsSolvable (record {
          rows = shape.joined rows.now others.now;
          bounds = bounds.now;
          costs = costs.now;
        }) }
        ensures { result ≡ record {
          rows = shape.joined rows.now others.now;
          bounds = bounds.now;
          costs = costs.now;
        } }
    {
        Lp {
            rows,
            others,
            bounds,
            costs,
        }
    }

    /// The number of columns. And the program can be solved: it is proper, and has fewer than 2^32 columns and rows.
    pub fn columns(&self) -> usize
        ensures columns { result ≡ length self.now.bounds }
        ensures solvable { shape.IsSolvable self.now }
    {
        self.bounds.len()
    }

    /// The number of columns and rows.
    pub fn len(&self) -> usize
        ensures { result ≡ shape.variables self.now }
    {
        self.bounds.len() + self.rows.len() + self.others.len()
    }

    /// The number of rows.
    pub(crate) fn row_count(&self) -> usize
        ensures rows { result ≡ length self.now.rows }
        ensures solvable { shape.IsSolvable self.now }
    {
        self.rows.len() + self.others.len()
    }

    /// A row, by its number.
    pub(crate) fn row(&self, number: usize) -> &Row
        requires { number < length self.now.rows }
        ensures { result.now ≡ slice_index_or self.now.rows number no_row }
    {
        if number < self.rows.len() {
            &self.rows[number]
        } else {
            self.others[number - self.rows.len()]
        }
    }

    /// The sides of the columns.
    pub(crate) fn sides(&self) -> &[Sides]
        ensures { result.now ≡ self.now.bounds }
    {
        self.bounds.as_slice()
    }

    /// The costs of the columns.
    pub(crate) fn costs(&self) -> &[Frac]
        ensures { result.now ≡ self.now.costs }
    {
        self.costs
    }
}

//! A linear program, lent with what names of rows mean.
use crate::Given;
use cip_cert::PoolRow;
use cip_frac::Frac;
use cip_lin::{Bounds, Row};

/// A linear program, lent: rows that stay and, behind them, those of a pool that may be used in the box; the box; and
/// what each column costs.
#[derive(Clone, Copy, Drop)]
pub struct Problem<'a> {
    /// The rows that stay.
    pub own: &'a [Row],
    /// The rows of the pool that may be used in the box, by rising id.
    pub others: &'a [&'a Row],
    /// Their ids.
    pub ids: &'a [u64],
    /// The rows of the pool.
    pub pool: &'a [PoolRow],
    /// Whether each column is whole, which says nothing here.
    pub whole: &'a [bool],
    /// The box.
    pub bounds: &'a Bounds,
    /// What each column costs.
    pub costs: &'a [Frac],
}

impl<'a> Problem<'a> {
    ghost use Rattle.std.specs.Prelude.{◌≡◌, length, All};
    ghost use Rattle.cip_problem.specs.Activity.{StandsBelow};
    ghost use Rattle.cip_basis.specs.Shown.{IsReady, program_of};

    /// The linear program of rows that stay alone.
    pub fn of_rows(rows: &'a [Row], bounds: &'a Bounds, costs: &'a [Frac]) -> Problem<'a>
        requires costs { length costs.now ≡ length bounds.now }
        requires rows { All (λ row. StandsBelow (length bounds.now) row.terms) rows.now }
        ensures ready { IsReady result }
        ensures program { program_of result
            ≡ record { rows = rows.now; bounds = bounds.now; costs = costs.now } }
    {
        Problem {
            own: rows,
            others: &[],
            ids: &[],
            pool: &[],
            whole: &[],
            bounds,
            costs,
        }
    }

    /// The linear program alone.
    pub(crate) fn given(&self) -> Given<'a> {
        Given {
            own: self.own,
            others: self.others,
            ids: self.ids,
            bounds: self.bounds,
            costs: self.costs,
        }
    }
}

//! The cutoff row.
ghost use Rattle.std.specs.Prelude.{◌≡◌, ◌≤◌, None, length, IfOk};
ghost use Rattle.cip_problem.specs.Limits.{most_columns};
ghost use Rattle.cip_problem.specs.Cuts.{terms_from};
ghost use Rattle.cip_core.specs.CutoffRow.{cutoff_side};

use cip_frac::Frac;
use cip_lin::{Row, RowFault, Term};
use cip_model::Program;
use std::alloc::Global;

/// The high side of the cutoff row.
pub(crate) fn side_of(program: &Program, held: &Option<Frac>) -> Option<Frac>
    ensures { result ≡ cutoff_side program.now held.now }
{
    match held {
        None => None,
        Some(cost) => match cost.sub(program.constant()) {
            Ok(side) => Some(side),
            Err(_) => None,
        },
    }
}

/// The cutoff row where nothing is held: the costs as terms, without sides; no fault but want of memory.
pub(crate) fn open_cutoff(alloc: Global, costs: &[Frac]) -> Result<Row, RowFault>
    requires { length costs.now ≤ most_columns }
    ensures { IfOk result (λ row. row ≡ record { terms = terms_from 0 costs.now; low = None; high = None }) }
{
    let mut row = Row::empty(alloc, None, None);
    for at in 0..costs.len() {
        let coef = costs[at];
        if !coef.is_zero() {
            row.append(Term {
                col: at as u32,
                coef,
            })?;
        }
    }
    Ok(row)
}

//! Copies of a program's parts.
ghost use Rattle.std.specs.Prelude.{◌≡◌, IfOk};
ghost use Rattle.cip_problem.specs.RowTerms.{AreTerms};
ghost use Rattle.cip_presolve.specs.DraftParts.{unnamed};

use crate::drafts::Draft;
use cip_frac::Frac;
use cip_lin::{Row, RowFault, Term};
use cip_model::Program;
use std::alloc::{AllocError, Global};

/// The row of terms that are a row's already; `Err` where the memory for it was refused.
#[tactic(auto, using(crate::proofs::RowTermsKept::no_fault))]
pub fn row_of_terms(
    alloc: Global,
    terms: &[Term],
    low: Option<Frac>,
    high: Option<Frac>,
) -> Result<Row, AllocError>
    requires { AreTerms terms.now }
    ensures { IfOk result (λ row. row ≡ record { terms = terms.now; low = low; high = high }) }
{
    match Row::build(alloc, terms, low, high) {
        Ok(row) => Ok(row),
        Err(RowFault::NoMemory) => Err(AllocError),
        Err(RowFault::NotRising { .. }) => unreachable!(),
        Err(RowFault::ZeroTerm { .. }) => unreachable!(),
    }
}

/// The same rows by themselves; `Err` where the memory for them was refused.
pub fn copied_rows(alloc: Global, rows: &[Row]) -> Result<Vec<Row>, AllocError>
    ensures { IfOk result (λ copy. copy.items ≡ rows.now) }
{
    let mut copy = Vec::new(alloc);
    for row in rows {
        copy.push(row_of_terms(alloc, row.terms(), row.low(), row.high())?)?;
    }
    Ok(copy)
}

impl Draft {
    /// The parts of a program, for steps; `Err` where the memory for them was refused.
    pub fn new(alloc: Global, program: &Program) -> Result<Draft, AllocError>
        ensures { IfOk result (λ draft. draft ≡ unnamed program.now) }
    {
        let Ok(bounds) = program.bounds().copied(alloc) else {
            return Err(AllocError);
        };
        let Ok(choices) = program.choices().copied(alloc) else {
            return Err(AllocError);
        };
        let Ok(whole) = program.whole().to_vec(alloc) else {
            return Err(AllocError);
        };
        let Ok(costs) = program.costs().to_vec(alloc) else {
            return Err(AllocError);
        };
        match copied_rows(alloc, program.rows()) {
            Ok(rows) => Ok(Draft {
                rows,
                costs,
                constant: program.constant(),
                whole,
                bounds,
                choices,
            }),
            Err(_) => Err(AllocError),
        }
    }
}

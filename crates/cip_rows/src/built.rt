//! Rows made of coefficients, and rows compared.
ghost use Rattle.std.specs.Prelude.{◌≡◌, ◌≤◌, ◌↔◌, IsTrue, length, MatchResult};
ghost use Rattle.cip_problem.specs.Limits.{most_columns};
ghost use Rattle.cip_problem.specs.Cuts.{row_of};
ghost use Rattle.cip_cert.specs.RowFault.{RowFault};

use cip_cert::{Frac, Row, RowFault, Term};
use std::alloc::Global;

/// The row that says that the sum of the coefficients' products is at least a number; no fault but want of memory.
pub(crate) fn row_from(alloc: Global, coefficients: &[Frac], least: Frac) -> Result<Row, RowFault>
    requires { length coefficients.now ≤ most_columns }
    ensures { MatchResult result
        (λ row. row ≡ row_of (record { coefficients = coefficients.now; least = least }))
        (λ fault. fault ≡ RowFault.NoMemory) }
{
    let mut row = Row::empty(alloc, Some(least), None);
    for at in 0..coefficients.len() {
        let coef = coefficients[at];
        if !coef.is_zero() {
            row.append(Term {
                col: at as u32,
                coef,
            })?;
        }
    }
    Ok(row)
}

/// Whether two sides are equal; an open one equals an open one.
fn is_same_side(a: Option<Frac>, b: Option<Frac>) -> bool
    ensures { IsTrue result ↔ (a ≡ b) }
{
    match (a, b) {
        (None, None) => true,
        (Some(a), Some(b)) => a == b,
        _ => false,
    }
}

/// Whether two terms are equal.
fn is_same_term(a: Term, b: Term) -> bool
    ensures { IsTrue result ↔ (a ≡ b) }
{
    a.col == b.col && a.coef == b.coef
}

/// Whether two lists of terms are equal.
fn are_same_terms(a: &[Term], b: &[Term]) -> bool
    ensures { IsTrue result ↔ (a.now ≡ b.now) }
{
    if a.len() != b.len() {
        return false;
    }
    for at in 0..a.len() {
        if !is_same_term(a[at], b[at]) {
            return false;
        }
    }
    true
}

/// Whether two rows are equal: their terms and their sides.
#[tactic(auto, using(crate::proofs::SameRows::same_rows, crate::proofs::SameRows::same_parts))]
pub(crate) fn is_same(a: &Row, b: &Row) -> bool
    ensures { IsTrue result ↔ (a.now ≡ b.now) }
{
    is_same_side(a.low(), b.low())
        && is_same_side(a.high(), b.high())
        && are_same_terms(a.terms(), b.terms())
}

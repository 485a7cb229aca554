//! Parts of a combination, added to a row of coefficients.
ghost use Rattle.std.specs.Prelude.{◌≡◌, length, Ok, Err, MatchResult};
ghost use Rattle.cip_problem.specs.Activity.{StandsBelow};
ghost use Rattle.cip_frac.specs.Outcomes.{product_added};
ghost use Rattle.cip_cert.specs.Checks.{placed, chain, side_part, add_terms, add_part};

use crate::faults::{CutFault, FaultPlace};
use crate::sparse::SparseRow;
use cip_frac::Frac;
use cip_lin::Term;

/// A sum with a product added, or where it overflows.
pub(crate) fn sum_of(place: FaultPlace, sum: Frac, a: Frac, b: Frac) -> Result<Frac, CutFault>
    ensures { result ≡ placed place (product_added sum a b) }
{
    let mut value = sum;
    if value.add_product(&a, &b) {
        Ok(value)
    } else {
        Err(CutFault::Wide { place })
    }
}

/// Adds the terms, each times the factor, in their order.
fn add_terms(
    entry: usize,
    factor: Frac,
    terms: &[Term],
    row: &mut SparseRow,
) -> Result<(), CutFault>
    requires { StandsBelow (length row.old.entries) terms.now }
    ensures steps { MatchResult result
        (λ _. add_terms entry factor terms.now row.old.entries ≡ Ok row.new.entries)
        (λ fault. add_terms entry factor terms.now row.old.entries ≡ Err fault) }
    ensures columns { length row.new.entries ≡ length row.old.entries }
{
    for term in terms {
        let before = row.entries()[term.col as usize];
        match sum_of(FaultPlace::Entry(entry), before, factor, term.coef) {
            Ok(value) => row.set(term.col, value),
            Err(fault) => return Err(fault),
        }
    }
    Ok(())
}

/// Adds a part to the coefficients and to the right side, and answers that.
pub(crate) fn add_part(
    entry: usize,
    factor: Frac,
    terms: &[Term],
    side: Option<Frac>,
    least: Frac,
    row: &mut SparseRow,
) -> Result<Frac, CutFault>
    requires { StandsBelow (length row.old.entries) terms.now }
    ensures steps { MatchResult result
        (λ more. chain (side_part entry factor terms.now side)
        (add_part entry (record { coefficients = row.old.entries; least = least }))
        ≡ Ok (record { coefficients = row.new.entries; least = more }))
        (λ fault. chain (side_part entry factor terms.now side)
        (add_part entry (record { coefficients = row.old.entries; least = least })) ≡ Err fault) }
    ensures columns { length row.new.entries ≡ length row.old.entries }
{
    let Some(side) = side else {
        return Err(CutFault::NoSide {
            place: FaultPlace::Entry(entry),
        });
    };
    if let Err(fault) = add_terms(entry, factor, terms, row) {
        return Err(fault);
    }
    sum_of(FaultPlace::Entry(entry), least, factor, side)
}

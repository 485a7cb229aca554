//! Forms of split cuts, added to a row of coefficients.
ghost use Rattle.std.specs.Prelude.{◌≡◌, ◌<◌, length, All, Ok, Err, MatchResult};
ghost use Rattle.cip_split.specs.SplitChecks.{number_of, whole_product_added, form_added, side_added};

use cip_cert::{FormTerm, SparseRow, SplitFormFault};
use cip_frac::Frac;

/// A whole number, if it is in range.
pub(crate) fn number_of(number: i128) -> Result<Frac, SplitFormFault>
    ensures { result ≡ number_of number }
{
    if number == i128::MIN {
        return Err(SplitFormFault::FormWide);
    }
    match Frac::whole(number) {
        Ok(value) => Ok(value),
        Err(_) => Err(SplitFormFault::FormWide),
    }
}

/// A sum with the product of a factor and a whole number added.
fn whole_product_added(sum: Frac, factor: Frac, number: i128) -> Result<Frac, SplitFormFault>
    ensures { result ≡ whole_product_added sum factor number }
{
    let number = match number_of(number) {
        Ok(number) => number,
        Err(fault) => return Err(fault),
    };
    let mut value = sum;
    if value.add_product(&factor, &number) {
        Ok(value)
    } else {
        Err(SplitFormFault::FormWide)
    }
}

/// Adds the terms of a form, each times the factor, in their order.
fn add_terms(factor: Frac, form: &[FormTerm], row: &mut SparseRow) -> Result<(), SplitFormFault>
    requires { All (λ term. term.col < length row.old.entries) form.now }
    ensures steps { MatchResult result
        (λ _. form_added factor form.now row.old.entries ≡ Ok row.new.entries)
        (λ fault. form_added factor form.now row.old.entries ≡ Err fault) }
    ensures columns { length row.new.entries ≡ length row.old.entries }
{
    for term in form {
        let before = row.entries()[term.col as usize];
        match whole_product_added(before, factor, term.coef) {
            Ok(value) => row.set(term.col, value),
            Err(fault) => return Err(fault),
        }
    }
    Ok(())
}

/// Adds a multiple of a form to the coefficients and of its side to the right side, and answers that.
pub(crate) fn add_side(
    factor: Frac,
    form: &[FormTerm],
    side: i128,
    least: Frac,
    row: &mut SparseRow,
) -> Result<Frac, SplitFormFault>
    requires { All (λ term. term.col < length row.old.entries) form.now }
    ensures steps { MatchResult result
        (λ more. side_added factor form.now side (record { coefficients = row.old.entries; least = least })
        ≡ Ok (record { coefficients = row.new.entries; least = more }))
        (λ fault. side_added factor form.now side (record { coefficients = row.old.entries; least = least })
        ≡ Err fault) }
    ensures columns { length row.new.entries ≡ length row.old.entries }
{
    if let Err(fault) = add_terms(factor, form, row) {
        return Err(fault);
    }
    whole_product_added(least, factor, side)
}

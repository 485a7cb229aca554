//! What multipliers of master rows leave of the costs, and the sides that they use.
ghost use Rattle.std.specs.Prelude.{◌≡◌, ◌<◌, length, All, Ok, Err, MatchResult};
ghost use Rattle.cip_problem.specs.Activity.{StandsBelow};
ghost use Rattle.cip_lagrange.specs.LagrangeOutcomes.{product_less, terms_less, side_used, multiplier_used, multipliers_used};

use crate::answers::LagrangeFault;
use cip_frac::Frac;
use cip_lin::{Row, Term};

/// A rest less the product of a multiplier and a coefficient, the product formed first.
fn product_less(rest: Frac, multiplier: Frac, coef: Frac) -> Result<Frac, LagrangeFault>
    ensures { result ≡ product_less rest multiplier coef }
{
    let Ok(product) = multiplier.mul(coef) else {
        return Err(LagrangeFault::Wide);
    };
    match rest.sub(product) {
        Ok(less) => Ok(less),
        Err(_) => Err(LagrangeFault::Wide),
    }
}

/// Takes the products of a multiplier and a row's coefficients from the rests of their columns.
fn take_terms(rests: &mut [Frac], multiplier: Frac, terms: &[Term]) -> Result<(), LagrangeFault>
    requires { StandsBelow (length rests.old) terms.now }
    ensures { MatchResult result
        (λ _. terms_less multiplier terms.now rests.old ≡ Ok rests.new)
        (λ fault. terms_less multiplier terms.now rests.old ≡ Err fault) }
{
    for term in terms {
        let at = term.col as usize;
        match product_less(rests[at], multiplier, term.coef) {
            Ok(less) => rests[at] = less,
            Err(fault) => return Err(fault),
        }
    }
    Ok(())
}

/// Adds the product of a multiplier and the side that it uses, and takes the row from the rests.
fn use_side(
    rests: &mut [Frac],
    start: Frac,
    number: u32,
    multiplier: Frac,
    terms: &[Term],
    side: Option<Frac>,
) -> Result<Frac, LagrangeFault>
    requires { StandsBelow (length rests.old) terms.now }
    ensures { MatchResult result
        (λ total. side_used number multiplier terms.now side (record { total = start; rests = rests.old })
        ≡ Ok (record { total = total; rests = rests.new }))
        (λ fault. side_used number multiplier terms.now side (record { total = start; rests = rests.old })
        ≡ Err fault) }
{
    let Some(side) = side else {
        return Err(LagrangeFault::NoSide { row: number });
    };
    let Ok(total) = start.plus_product(multiplier, side) else {
        return Err(LagrangeFault::Wide);
    };
    match take_terms(rests, multiplier, terms) {
        Ok(()) => Ok(total),
        Err(fault) => Err(fault),
    }
}

/// Uses the multiplier of a row, unless it is 0.
fn use_multiplier(
    rests: &mut [Frac],
    start: Frac,
    number: u32,
    multiplier: Frac,
    row: &Row,
) -> Result<Frac, LagrangeFault>
    requires { StandsBelow (length rests.old) row.now.terms }
    ensures { MatchResult result
        (λ total. multiplier_used number multiplier row.now (record { total = start; rests = rests.old })
        ≡ Ok (record { total = total; rests = rests.new }))
        (λ fault. multiplier_used number multiplier row.now (record { total = start; rests = rests.old })
        ≡ Err fault) }
{
    if multiplier.is_positive() {
        use_side(rests, start, number, multiplier, row.terms(), row.low())
    } else if multiplier.is_negative() {
        use_side(rests, start, number, multiplier, row.terms(), row.high())
    } else {
        Ok(start)
    }
}

/// Uses the multipliers of rows by their numbers, one after another, and answers the sum of their sides' products.
pub fn use_multipliers(
    rests: &mut [Frac],
    start: Frac,
    rows: &[Row],
    numbers: &[u32],
    multipliers: &[Frac],
) -> Result<Frac, LagrangeFault>
    requires stands { All (λ row. StandsBelow (length rests.old) row.terms) rows.now }
    requires numbers { All (λ number. number < length rows.now) numbers.now }
    requires each { length multipliers.now ≡ length numbers.now }
    ensures { MatchResult result
        (λ total. multipliers_used rows.now numbers.now multipliers.now (record { total = start; rests = rests.old })
        ≡ Ok (record { total = total; rests = rests.new }))
        (λ fault. multipliers_used rows.now numbers.now multipliers.now (record { total = start; rests = rests.old })
        ≡ Err fault) }
{
    let mut total = start;
    for at in 0..numbers.len() {
        let number = numbers[at];
        let row = &rows[number as usize];
        match use_multiplier(rests, total, number, multipliers[at], row) {
            Ok(more) => total = more,
            Err(fault) => return Err(fault),
        }
    }
    Ok(total)
}

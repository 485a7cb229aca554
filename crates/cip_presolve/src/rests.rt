//! The least and the greatest activity of a row without one of its terms, by those of the whole row.
ghost use Rattle.std.specs.Prelude.{◌≡◌, ◌<◌, length, slice_get, Some, IfSome, IfOk};
ghost use Rattle.std.specs.List.{remove};
ghost use Rattle.cip_rational.specs.Rational.{zeroℚ};
ghost use Rattle.cip_problem.specs.Activity.{StandsBelow};
ghost use Rattle.cip_presolve.specs.RowReading.{Encloses};
ghost use Rattle.cip_presolve.specs.Rests.{IsDifference, AreRests};

use crate::extents::{extent, negated_value, value_of};
use cip_frac::Frac;
use cip_lin::{Bounds, Row, RowFault, Sides, Term, add_least};
use std::alloc::{AllocError, Global};

/// A side less a number, where both are there and the difference is in range.
#[tactic(auto, using(crate::proofs::RestSums::difference_is))]
pub(crate) fn difference(side: Option<Frac>, rest: Option<Frac>) -> Option<Frac>
    ensures { IfSome result (IsDifference side rest) }
{
    match (side, rest) {
        (Some(side), Some(rest)) => match side.sub(rest) {
            Ok(difference) => Some(difference),
            Err(_) => None,
        },
        _ => None,
    }
}

/// The term at a place.
pub(crate) fn term_at(row: &Row, at: usize) -> Term
    requires { at < length row.now.terms }
    ensures term { slice_get row.now.terms at ≡ Some result }
    ensures nonzero { ¬ (result.coefficient ≡ zeroℚ) }
{
    row.terms()[at]
}

/// A row without the term at a place, and without sides; `None` where that is no row, and `Err` where the memory for it
/// was refused.
#[tactic(auto, using(crate::proofs::RestSums::without))]
fn without(alloc: Global, row: &Row, at: usize) -> Result<Option<Row>, AllocError>
    requires { at < length row.now.terms }
    ensures { IfOk result (λ found. IfSome found (λ rest. rest.terms ≡ remove row.now.terms at)) }
{
    let mut terms = row.terms().to_vec(alloc)?;
    let _own = terms.remove(at);
    match Row::build(alloc, terms.as_slice(), None, None) {
        Ok(rest) => Ok(Some(rest)),
        Err(RowFault::NoMemory) => Err(AllocError),
        Err(_) => Ok(None),
    }
}

/// Two sides between which the activity of a row without the term at a place lies, by the sides `whole` of the row's
/// activity, or summed up `anew`. `Err` comes where a growth was refused.
#[tactic(auto, using(crate::proofs::RestSums::summed))]
pub(crate) fn rests(
    alloc: Global,
    row: &Row,
    at: usize,
    bounds: &Bounds,
    whole: Sides,
    anew: bool,
) -> Result<Sides, AllocError>
    requires stands { StandsBelow (length bounds.now) row.now.terms }
    requires inside { at < length row.now.terms }
    requires encloses { Encloses bounds.now row.now.terms whole }
    ensures { IfOk result (AreRests bounds.now row.now.terms at) }
{
    if anew {
        return match without(alloc, row, at)? {
            Some(rest) => Ok(extent(&rest, bounds)),
            None => Ok(Sides {
                low: None,
                high: None,
            }),
        };
    }
    let _terms = row.terms();
    let term = term_at(row, at);
    let sides = bounds.sides(term.col);
    let least = value_of(add_least(Frac::zero(), term.coef, sides));
    let greatest = negated_value(add_least(Frac::zero(), term.coef.neg(), sides));
    Ok(Sides {
        low: difference(whole.low, least),
        high: difference(whole.high, greatest),
    })
}

//! Single entries and values of a dictionary, each formed at its place.
ghost use Rattle.std.specs.Prelude.{◌≡◌, ◌∷◌, [], Some, None, MatchResult};
ghost use Rattle.cip_rational.specs.Rational.{zeroℚ, ◌+ℚ◌, ◌-ℚ◌, ◌*ℚ◌, lt_test, is_zero};
ghost use Rattle.cip_bland.specs.Operations.{first_overflow, product_at, sum_at, Difference, Product, placed};
ghost use Rattle.cip_dict.specs.Values.{IsAdded};

use crate::fault::OutOfRange;
use cip_bland::EntryPlace;
use cip_frac::Frac;

/// Whether a number is 0.
#[inline(always)]
pub(crate) fn vanishes(a: Frac) -> bool
    ensures { result ≡ is_zero a }
{
    a.is_zero()
}

/// Whether a number is above 0.
#[inline(always)]
pub(crate) fn is_above(a: Frac) -> bool
    ensures { result ≡ lt_test zeroℚ a }
{
    a.is_positive()
}

/// The product a * b, for which nothing is formed where a factor is 0.
#[inline(always)]
#[tactic(auto, using(crate::proofs::Formed::entry_laws))]
pub(crate) fn product(place: EntryPlace, a: Frac, b: Frac) -> Result<Frac, OutOfRange>
    ensures { MatchResult result
        (λ v. (first_overflow (product_at place a b) ≡ None) × (v ≡ a *ℚ b))
        (λ fault. first_overflow (product_at place a b) ≡ Some fault.place) }
{
    if vanishes(a) || vanishes(b) {
        return Ok(Frac::zero());
    }
    match a.mul(b) {
        Ok(value) => Ok(value),
        Err(_) => Err(OutOfRange { place }),
    }
}

/// Adds a * b to a number, the product formed first; `false` where an operation leaves the range. Where a factor is 0
/// nothing is formed.
#[inline(always)]
#[tactic(auto, using(crate::proofs::Formed::entry_laws))]
pub(crate) fn add_product(c: &mut Frac, a: Frac, b: Frac) -> bool
    ensures { IsAdded result c.old a b c.new }
{
    if vanishes(a) || vanishes(b) {
        return true;
    }
    c.add_product(&a, &b)
}

/// The sum c + a * b, the product formed first; where a factor is 0 nothing is formed.
#[inline(always)]
#[tactic(auto, using(crate::proofs::Formed::entry_laws))]
pub(crate) fn sum(place: EntryPlace, c: Frac, a: Frac, b: Frac) -> Result<Frac, OutOfRange>
    ensures { MatchResult result
        (λ v. (first_overflow (sum_at place c a b) ≡ None) × (v ≡ c +ℚ a *ℚ b))
        (λ fault. first_overflow (sum_at place c a b) ≡ Some fault.place) }
{
    if vanishes(a) || vanishes(b) {
        return Ok(c);
    }
    let mut total = c;
    if total.add_product(&a, &b) {
        Ok(total)
    } else {
        Err(OutOfRange { place })
    }
}

/// How far a value is from a side, and the product of that with q: by how much the variable that enters moves.
pub(crate) fn step_to(place: EntryPlace, side: Frac, v: Frac, q: Frac) -> Result<Frac, OutOfRange>
    ensures { let operations =
        placed place (Difference side v) ∷ placed place (Product (side -ℚ v) q) ∷ [] in
        MatchResult result
        (λ t. (first_overflow operations ≡ None) × (t ≡ (side -ℚ v) *ℚ q))
        (λ fault. first_overflow operations ≡ Some fault.place) }
{
    let Ok(distance) = side.sub(v) else {
        return Err(OutOfRange { place });
    };
    match distance.mul(q) {
        Ok(value) => Ok(value),
        Err(_) => Err(OutOfRange { place }),
    }
}

//! The least of what is left of the costs on columns of no block.
ghost use Rattle.std.specs.Prelude.{◌≡◌, ◌<◌, length, All};
ghost use Rattle.cip_lagrange.specs.LagrangeOutcomes.{column_added, free_added};

use crate::answers::LagrangeFault;
use cip_frac::Frac;
use cip_lin::{Bounds, Sides};

/// A sum with the least product of a rest and a value of its column added; a rest of 0 adds nothing.
fn add_column(sum: Frac, col: u32, rest: Frac, sides: Sides) -> Result<Frac, LagrangeFault>
    ensures { result ≡ column_added col rest sides sum }
{
    let side = if rest.is_positive() {
        sides.low
    } else if rest.is_negative() {
        sides.high
    } else {
        return Ok(sum);
    };
    let Some(side) = side else {
        return Err(LagrangeFault::NoRest { col });
    };
    match sum.plus_product(rest, side) {
        Ok(total) => Ok(total),
        Err(_) => Err(LagrangeFault::Wide),
    }
}

/// A sum with the least rests of columns by their numbers added, one after another.
pub fn add_free(
    rests: &[Frac],
    bounds: &Bounds,
    numbers: &[u32],
    start: Frac,
) -> Result<Frac, LagrangeFault>
    requires each { length bounds.now ≡ length rests.now }
    requires numbers { All (λ number. number < length rests.now) numbers.now }
    ensures { result ≡ free_added rests.now bounds.now numbers.now start }
{
    let mut sum = start;
    for number in numbers {
        let rest = rests[*number as usize];
        match add_column(sum, *number, rest, bounds.sides(*number)) {
            Ok(more) => sum = more,
            Err(fault) => return Err(fault),
        }
    }
    Ok(sum)
}

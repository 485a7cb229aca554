//! The halves of the values of a column: those up to a whole number, and those from the next one on; of a
//! semi-continuous one, 0 and those between its own sides.
ghost use Rattle.std.specs.Prelude.{◌≡◌, ◌↔◌, ◌^◌, ◌≤◌, ◌+ℤ◌, pos, unsigned_abs, IsTrue, None, Some};
ghost use Rattle.cip_rational.specs.Rational.{integer};
ghost use Rattle.cip_problem.specs.Wholes.{HasWhole};
ghost use Rattle.cip_problem.specs.Program.{Open};
ghost use Rattle.cip_lin.specs.declared.sides.Side.TheVariants.{Low, High};
ghost use Rattle.cip_domain.specs.Changes.{side_change};
ghost use Rattle.cip_domain.specs.Domain.{left_sides};
ghost use Rattle.cip_domain.specs.Halves.{CanHalve, low_sides, high_sides};

use crate::changes::Change;
use cip_lin::{Frac, Side, Sides};

/// Whether a whole number lies between a low side and a whole number, itself among them.
fn has_low(low: Option<Frac>, at: i128) -> bool
    ensures { IsTrue result ↔ HasWhole (low_sides (record { low = low; high = None }) at) }
{
    match low {
        None => true,
        Some(low) => { if low.ceil() <= at { true } else { false } }
    }
}

/// Whether a whole number above another lies below a high side.
fn has_high(high: Option<Frac>, at: i128) -> bool
    ensures { IsTrue result ↔ HasWhole (high_sides (record { low = None; high = high }) at) }
{
    match high {
        None => true,
        Some(high) => { if at < high.floor() { true } else { false } }
    }
}

/// Whether a column with these sides can be split at a whole number: that has a size of at most 2^101, and each half
/// has a whole value.
pub fn can_halve(sides: Sides, at: i128) -> bool
    ensures { IsTrue result ↔ CanHalve sides at }
{
    at.unsigned_abs() <= 1 << 101 && has_low(sides.low, at) && has_high(sides.high, at)
}

/// A whole number as a fraction.
fn whole(at: i128) -> Frac
    requires { unsigned_abs at ≤ 2 ^ 102 }
    ensures { result ≡ integer at }
{
    match Frac::whole(at) {
        Ok(value) => value,
        Err(_) => unreachable!(),
    }
}

/// The change that gives the low half of a column: it is at most a whole number.
pub fn low_change(col: u32, at: i128) -> Change
    requires { unsigned_abs at ≤ 2 ^ 101 }
    ensures { result ≡ side_change col High (integer at) }
{
    Change::of_side(col, Side::High, whole(at))
}

/// The change that gives the high half of a column: it is at least the whole number after one.
pub fn high_change(col: u32, at: i128) -> Change
    requires { unsigned_abs at ≤ 2 ^ 101 }
    ensures { result ≡ side_change col Low (integer (at +ℤ pos 1)) }
{
    Change::of_side(col, Side::Low, whole(at + 1))
}

/// The change that makes the choice of a semi-continuous column with these own sides: where it is off its value is 0,
/// and where it is on one between them. Off is the low half of the column, and on the high one.
pub fn choice_change(col: u32, own: Sides, on: bool) -> Change
    ensures { result ≡ record { column = col; sides = left_sides (Open own) on; made = Some on } }
{
    let sides = if on { own } else { Sides::zero() };
    Change {
        col,
        sides,
        made: Some(on),
    }
}

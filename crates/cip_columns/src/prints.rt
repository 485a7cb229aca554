//! Groups of points: equal points of one block are in one group.
ghost use Rattle.std.specs.Prelude.{◌≡◌, ◌<◌, ◌^◌, ◌%◌};
ghost use Rattle.cip_columns.specs.PointPrints.{print_modulus, group_count, mixed, with_number, with_numbers, group_of};

use cip_frac::Frac;

// A prime below 2^32, so that no product overflows.
const MODULUS: u64 = 4_294_967_291;

/// How many groups of points there are.
pub(crate) const GROUPS: usize = 65_536;

/// A number mixed into another one.
fn mix(from: u64, more: u64) -> u64
    requires from { from < print_modulus }
    requires more { more < 2 ^ 32 }
    ensures value { result ≡ mixed from more }
    ensures below { result < print_modulus }
{
    (from * 1_000_003 + more) % MODULUS
}

/// The remainder of a magnitude.
fn reduced(magnitude: u128) -> u64
    ensures value { result ≡ magnitude % print_modulus }
    ensures below { result < 2 ^ 32 }
{
    (magnitude % MODULUS as u128) as u64
}

/// A fraction mixed into a number.
fn mix_number(from: u64, number: Frac) -> u64
    requires { from < print_modulus }
    ensures value { result ≡ with_number from number }
    ensures below { result < print_modulus }
{
    let over = reduced(number.numerator().unsigned_abs());
    let under = reduced(number.denominator().unsigned_abs());
    mix(mix(from, over), under)
}

/// Fractions mixed into a number, in their order.
fn mix_numbers(start: u64, numbers: &[Frac]) -> u64
    requires { start < print_modulus }
    ensures value { result ≡ with_numbers start numbers.now }
    ensures below { result < print_modulus }
{
    let mut from = start;
    for number in numbers {
        from = mix_number(from, *number);
    }
    from
}

/// The group of a point of a block.
pub(crate) fn group_of(block: u32, values: &[Frac]) -> usize
    ensures value { result ≡ group_of block values.now }
    ensures below { result < group_count }
{
    (mix_numbers(mix(0, u64::from(block)), values) % GROUPS as u64) as usize
}

//! Which splits can be made.
ghost use Rattle.std.specs.Prelude.{◌≡◌, ◌<◌, length, Some, None, Ok, Err, MatchResult};
ghost use Rattle.cip_lagrange.specs.TreeOutcomes.{node_in, has_low, has_high, can_halve, can_split_at, can_split, split_fault};

use crate::answers::TreeFault;
use crate::regions::TreeRegion;
use cip_frac::Frac;
use cip_lin::{Choice, Sides};

/// Whether a whole number lies between a low side and a whole number, itself among them.
fn has_low(low: Option<Frac>, at: i128) -> bool
    ensures { result ≡ has_low low at }
{
    match low {
        None => true,
        Some(low) => low.ceil() <= at,
    }
}

/// Whether a whole number above another lies below a high side.
fn has_high(high: Option<Frac>, at: i128) -> bool
    ensures { result ≡ has_high high at }
{
    match high {
        None => true,
        Some(high) => at < high.floor(),
    }
}

/// Whether sides can be halved at a whole number: it has a size of at most 2^101, and each half has a whole value.
fn can_halve(sides: Sides, at: i128) -> bool
    ensures { result ≡ can_halve sides at }
{
    at.unsigned_abs() <= 1 << 101 && (has_low(sides.low, at) && has_high(sides.high, at))
}

/// Whether a column can be split: a whole one that is plain where its sides can be halved, and one whose choice is
/// open.
fn can_split_at(choice: Choice, whole: bool, sides: Sides, at: i128) -> bool
    ensures { result ≡ can_split_at choice whole sides at }
{
    if choice.is_open() {
        !whole
    } else if choice.is_plain() {
        whole && can_halve(sides, at)
    } else {
        false
    }
}

/// Whether a region can be split at a column.
fn can_split(whole: &[bool], region: &TreeRegion, col: u32, at: i128) -> bool
    requires { length whole.now ≡ length region.now.bounds }
    ensures { result ≡ can_split whole.now (node_in region.now) col at }
{
    if col as usize >= region.bounds.len() {
        return false;
    }
    let sides = region.bounds.sides(col);
    can_split_at(region.choices.at(col), whole[col as usize], sides, at)
}

/// Why a node of a tree can't be split, if it can't.
pub(crate) fn check_split(
    whole: &[bool],
    region: &TreeRegion,
    node: u128,
    col: u32,
    at: i128,
) -> Result<(), TreeFault>
    requires { length whole.now ≡ length region.now.bounds }
    ensures { MatchResult result
        (λ _. split_fault whole.now node (node_in region.now) col at ≡ None)
        (λ fault. split_fault whole.now node (node_in region.now) col at ≡ Some fault) }
{
    if node >= 1 << 64 {
        return Err(TreeFault::TooDeep);
    }
    if can_split(whole, region, col, at) {
        Ok(())
    } else {
        Err(TreeFault::BadSplit { node })
    }
}

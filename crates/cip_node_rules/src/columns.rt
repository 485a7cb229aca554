//! The first column of a kind.
ghost use Rattle.std.specs.Prelude.{◌≡◌, ◌≤◌, ◌&&◌, true, length, MatchOption, MatchBool};
ghost use Rattle.cip_problem.specs.Limits.{most_columns};
ghost use Rattle.cip_problem.specs.Box.{two_wholes_between};
ghost use Rattle.cip_problem.specs.Wholes.{HasWhole, AllHaveWholes};
ghost use Rattle.cip_node_rules.specs.OpenColumns.{whole_between, is_open_at, is_fractional, is_fractional_at, IsFirstColumn, PassesNowhere, LacksWhole};

use cip_lin::{Bounds, Frac, Sides};

/// Whether a whole number lies between two sides, by their rounded values.
fn is_whole_between(low: Option<Frac>, high: Option<Frac>) -> bool
    ensures { result ≡ whole_between low high }
{
    match (low, high) {
        (Some(low), Some(high)) => low.ceil() <= high.floor(),
        _ => true,
    }
}

/// Whether a whole number lies between two sides.
pub fn has_whole(sides: Sides) -> bool
    ensures { MatchBool result (HasWhole sides) (¬ HasWhole sides) }
{
    is_whole_between(sides.low, sides.high)
}

/// Whether a column of this kind is whole, and lacks a whole number between its sides.
fn lacks_whole(whole: bool, sides: Sides) -> bool
    ensures { MatchBool result ((whole ≡ true) × (¬ HasWhole sides)) (whole ≡ true → HasWhole sides) }
{
    if whole { !has_whole(sides) } else { false }
}

/// Whether a column of this kind is whole, and has two whole values between its sides.
fn is_open(whole: bool, sides: Sides) -> bool
    ensures { result ≡ (whole && two_wholes_between sides.low sides.high) }
{
    whole && sides.has_two_wholes()
}

/// The first whole column between whose sides no whole number lies.
pub fn lacking_column(whole: &[bool], bounds: &Bounds) -> Option<u32>
    requires columns { length whole.now ≤ most_columns }
    requires long { length whole.now ≡ length bounds.now }
    ensures { MatchOption result (AllHaveWholes whole.now bounds.now) (LacksWhole whole.now bounds.now) }
{
    for column in 0..whole.len() as u32 {
        if lacks_whole(whole[column as usize], bounds.sides(column)) {
            return Some(column);
        }
    }
    None
}

/// The first whole column with two whole values.
pub fn open_column(whole: &[bool], bounds: &Bounds) -> Option<u32>
    requires columns { length whole.now ≤ most_columns }
    requires long { length whole.now ≡ length bounds.now }
    ensures { MatchOption result (PassesNowhere (is_open_at whole.now bounds.now) (length whole.now))
        (IsFirstColumn (is_open_at whole.now bounds.now) (length whole.now)) }
{
    for column in 0..whole.len() as u32 {
        if is_open(whole[column as usize], bounds.sides(column)) {
            return Some(column);
        }
    }
    None
}

/// Whether a value isn't whole, and not farther than 2^100 from 0.
fn is_fractional(value: Frac) -> bool
    ensures { result ≡ is_fractional value }
{
    if value.is_whole() {
        return false;
    }
    match Frac::whole(1 << 100) {
        Ok(limit) => value.abs() <= limit,
        Err(_) => unreachable!(),
    }
}

/// The first whole column with two whole values at which a point has a value that isn't whole, and not farther than
/// 2^100 from 0.
pub fn fractional_column(whole: &[bool], bounds: &Bounds, point: &[Frac]) -> Option<u32>
    requires columns { length whole.now ≤ most_columns }
    requires long { length whole.now ≡ length bounds.now }
    requires values { length point.now ≡ length bounds.now }
    ensures { MatchOption result (PassesNowhere (is_fractional_at whole.now bounds.now point.now) (length whole.now))
        (IsFirstColumn (is_fractional_at whole.now bounds.now point.now) (length whole.now)) }
{
    for column in 0..whole.len() as u32 {
        let at = column as usize;
        if is_open(whole[at], bounds.sides(column)) && is_fractional(point[at]) {
            return Some(column);
        }
    }
    None
}

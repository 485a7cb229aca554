//! Where a box is split.
ghost use Rattle.std.specs.Prelude.{◌≡◌, ◌≤◌, ◌<◌, ◌+ℤ◌, ◌<ℤ◌, true, length, IfSome, MatchOption, option_map};
ghost use Rattle.cip_rational.specs.Rational.{floor, ceil};
ghost use Rattle.cip_rational.specs.Range.{magnitude, largest};
ghost use Rattle.cip_problem.specs.Box.{two_wholes_between};
ghost use Rattle.cip_problem.specs.Limits.{most_columns};
ghost use Rattle.cip_node_rules.specs.OpenColumns.{is_open_at, PassesNowhere};
ghost use Rattle.cip_node_rules.specs.OpenChoices.{IsSettledBox};
ghost use Rattle.cip_node_rules.specs.SplitRules.{moved, raised_to, lowered_to, IsHalf, IsMiddle, IsSplitRule, IsNodeRule, SplitsLeaveBoth};

use crate::choices::chosen_choice;
use crate::columns::{fractional_column, open_column};
use cip_lin::{Bounds, Choices, Frac, Sides};

/// Where a box is split: the column is at most `at`, or at least `at + 1`; or, where its choice is open, that is made,
/// off or on.
#[derive(Clone, Copy, PartialEq, Eq)]
pub struct SplitPlace {
    /// The number of the column.
    pub col: u32,
    /// The whole number; 0 where a choice is made.
    pub at: i128,
}

/// The least whole number above a fraction, itself among them.
fn next_whole(low: Frac) -> i128
    ensures value { result ≡ ceil low }
    ensures bounded { magnitude result ≤ largest }
{
    low.rounded_up().numerator()
}

/// The greatest whole number below a fraction, itself among them.
fn last_whole(high: Frac) -> i128
    ensures value { result ≡ floor high }
    ensures bounded { magnitude result ≤ largest }
{
    high.rounded_down().numerator()
}

/// A number that is at least the least whole number above a low side.
fn raised(low: Option<Frac>, at: i128) -> i128
    ensures { result ≡ raised_to low at }
{
    match low {
        None => at,
        Some(low) => {
            let least = next_whole(low);
            if at < least { least } else { at }
        }
    }
}

/// A number that is below the greatest whole number below a high side.
fn lowered(high: Option<Frac>, at: i128) -> i128
    ensures { result ≡ lowered_to high at }
{
    match high {
        None => at,
        Some(high) => {
            let top = last_whole(high);
            if at < top { at } else { top - 1 }
        }
    }
}

/// A number moved to where both sides of a split keep a whole value.
pub fn moved(sides: Sides, at: i128) -> i128
    ensures { result ≡ moved sides at }
{
    lowered(sides.high, raised(sides.low, at))
}

/// Half the sum of two numbers, rounded down.
fn half(low: i128, high: i128) -> i128
    requires { low <ℤ high }
    ensures { IsHalf (low +ℤ high) result }
{
    low + (high.abs_diff(low) / 2) as i128
}

/// The middle of the whole values between two sides, rounded down; where one is open, 0, moved to where both sides of a
/// split keep a whole value.
pub fn middle(sides: Sides) -> i128
    requires { two_wholes_between sides.low sides.high ≡ true }
    ensures { IsMiddle sides.low sides.high result }
{
    match (sides.low, sides.high) {
        (Some(low), Some(high)) => half(next_whole(low), last_whole(high)),
        (low, None) => raised(low, 0),
        (None, high) => lowered(high, 0),
    }
}

/// Where a box is split that has a whole column with two whole values: by the point of its linear program, if there is
/// one, at the first of these columns whose value isn't whole and not farther than 2^100 from 0, at its floor; else at
/// the first, at the middle of its whole values. `None` exactly where no whole column has two whole values.
fn whole_place(whole: &[bool], bounds: &Bounds, point: Option<&[Frac]>) -> Option<SplitPlace>
    requires columns { length whole.now ≤ most_columns }
    requires long { length whole.now ≡ length bounds.now }
    requires values { IfSome point (λ values. length values.now ≡ length bounds.now) }
    ensures { MatchOption result (PassesNowhere (is_open_at whole.now bounds.now) (length whole.now))
        (λ place. IsSplitRule whole.now bounds.now (option_map (λ values. values.now) point.entry) place.col place.at) }
{
    if let Some(point) = point {
        if let Some(col) = fractional_column(whole, bounds, point) {
            let at = moved(bounds.sides(col), point[col as usize].floor());
            return Some(SplitPlace { col, at });
        }
    }
    let col = open_column(whole, bounds)?;
    let at = middle(bounds.sides(col));
    Some(SplitPlace { col, at })
}

/// Where a box with choices is split: at a whole column with two whole values, if there is one, by the point of its
/// linear program, if there is one, at the first of these columns whose value isn't whole and not farther than 2^100
/// from 0, at its floor, else at the first, at the middle of its whole values; and else at the column whose choice is
/// made next (`chosen_choice`). `None` exactly where no whole column has two whole values and no choice is open.
pub fn chosen_place(
    whole: &[bool],
    bounds: &Bounds,
    choices: &Choices,
    point: Option<&[Frac]>,
) -> Option<SplitPlace>
    requires columns { length whole.now ≤ most_columns }
    requires long { length whole.now ≡ length bounds.now }
    requires values { IfSome point (λ values. length values.now ≡ length bounds.now) }
    ensures { MatchOption result (IsSettledBox whole.now bounds.now choices.now)
        (λ place. IsNodeRule whole.now bounds.now choices.now (option_map (λ values. values.now) point.entry)
        place.col place.at) }
{
    if let Some(place) = whole_place(whole, bounds, point) {
        return Some(place);
    }
    let col = chosen_choice(whole.len(), choices, point)?;
    Some(SplitPlace { col, at: 0 })
}

/// A split of a whole column by these rules leaves a whole value on both sides, and no whole number that it names is
/// farther from 0 than 1 past the sides and 2^100.
pub fn splits_leave_both()
    ensures { SplitsLeaveBoth }
{}

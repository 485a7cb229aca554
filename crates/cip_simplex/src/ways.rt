//! The ways of a variable that lets the cost fall, each to a side, and the shortest of them.
ghost use Rattle.std.specs.Prelude.{◌≡◌, ◌≢◌, ◌<◌, ◌^◌, true, is_some, Some, None, MatchResult};
ghost use Rattle.cip_rational.specs.Rational.{zeroℚ};
ghost use Rattle.cip_bland.specs.Dictionary as def;
ghost use Rattle.cip_problem.specs.Box.{sides_at};
ghost use Rattle.cip_bland.specs.Headings as headings;
ghost use Rattle.cip_bland.specs.Rule as rule;
ghost use Rattle.cip_bland.specs.MoveList.{wide_way, first_wide_way};

use crate::headings::{change_along, goal_ahead, heading_if, is_below};
use cip_bland::{Heading, Move, Stand};
use cip_dict::{Dict, Frac};
use cip_lin::Sides;
use std::marker::Model;

/// A way of a variable to a side: whose side that is, where that variable then stands, and how far it is.
#[derive(Drop)]
pub(crate) struct Way {
    pub(crate) variable: u32,
    pub(crate) to: Stand,
    pub(crate) length: Frac,
}

impl Model for Way {
    ghost use Rattle.cip_bland.specs.Rule as rule;
    ghost use Rattle.cip_simplex.specs.WayCode.{way_code};

    ghost Value = { rule.Way };

    ghost coded = { way_code };

    ghost view = { λ w. record { variable = w.variable; to = w.to; length = w.length } };
}

/// The way in which j goes so that the cost falls.
pub(crate) fn falling_heading(dict: &Dict, j: u32) -> Heading
    requires { j < def.size dict.now }
    ensures { result ≡ rule.falling_heading dict.now j }
{
    heading_if(Heading::Down, dict.cost_entry(j).is_positive())
}

/// The value where a variable with these sides stands; 0 where the side isn't there.
fn value_at_stand(sides: Sides, at: Stand) -> Frac
    ensures { result ≡ def.standing_value sides at }
{
    match at {
        Stand::Low => sides.low.unwrap_or(Frac::zero()),
        Stand::High => sides.high.unwrap_or(Frac::zero()),
        Stand::Zero => Frac::zero(),
    }
}

/// The way of j, which goes this way, to its own side; the move by which it would go there where the length is out of
/// range.
fn own_way(dict: &Dict, j: u32, heading: Heading) -> Result<Option<Way>, Move>
    requires within { j < def.size dict.now }
    requires falls { heading ≡ rule.falling_heading dict.now j }
    ensures { MatchResult result
        (λ found. (wide_way dict.now j (rule.way_of dict.now j j) ≡ None) × (found ≡ rule.way_of dict.now j j))
        (λ wide. wide_way dict.now j (rule.way_of dict.now j j) ≡ Some wide) }
{
    let Some(to) = goal_ahead(heading, dict.sides(j)) else {
        return Ok(None);
    };
    let other = match dict.stand(j) {
        Some(Stand::Low) => Stand::High,
        Some(Stand::High) => Stand::Low,
        _ => Stand::Zero,
    };
    let side = value_at_stand(dict.sides(j), other);
    match side.sub(dict.value(j)) {
        Ok(change) => Ok(Some(Way {
            variable: j,
            to,
            length: change_along(heading, change),
        })),
        Err(_) => Err(Move::Flip(j)),
    }
}

/// Where the basic variable v, which has an entry on j, not 0, stands at the side to which it goes as j goes this way,
/// if that side is there.
fn basic_goal(dict: &Dict, j: u32, heading: Heading, v: u32) -> Option<Stand>
    requires leaving { v < def.size dict.now }
    requires basic { def.is_basic dict.now v ≡ true }
    requires entering { j < def.size dict.now }
    ensures { result
        ≡ headings.goal_ahead (headings.heading_for heading (def.entry dict.now v j)) (sides_at dict.now.sides v) }
{
    let heading = heading_if(heading, dict.is_entry_positive(v, j));
    goal_ahead(heading, dict.sides(v))
}

/// The way of j, which goes this way, to the side of the basic variable v, which has an entry on j, not 0. That is
/// formed only where there is such a side.
fn basic_way(dict: &Dict, j: u32, heading: Heading, v: u32) -> Result<Option<Way>, Move>
    requires entering { j < def.size dict.now }
    requires falls { heading ≡ rule.falling_heading dict.now j }
    requires leaving { v < def.size dict.now }
    requires apart { v ≢ j }
    requires basic { def.is_basic dict.now v ≡ true }
    requires nonzero { def.entry dict.now v j ≢ zeroℚ }
    ensures { MatchResult result
        (λ found. (wide_way dict.now j (rule.way_of dict.now j v) ≡ None) × (found ≡ rule.way_of dict.now j v))
        (λ wide. wide_way dict.now j (rule.way_of dict.now j v) ≡ Some wide) }
{
    let Some(to) = basic_goal(dict, j, heading, v) else {
        return Ok(None);
    };
    let side = value_at_stand(dict.sides(v), to);
    let Ok(distance) = side.sub(dict.value(v)) else {
        return Err(Move::Exchange(v, j, to));
    };
    match distance.mul(dict.entry(v, j).reciprocal()) {
        Ok(change) => Ok(Some(Way {
            variable: v,
            to,
            length: change_along(heading, change),
        })),
        Err(_) => Err(Move::Exchange(v, j, to)),
    }
}

/// The way of j, which goes this way, to the side of variable v, if there is one; the move by which it would go there
/// where the length is out of range.
fn way_to(dict: &Dict, j: u32, heading: Heading, v: u32) -> Result<Option<Way>, Move>
    requires entering { j < def.size dict.now }
    requires falls { heading ≡ rule.falling_heading dict.now j }
    requires within { v < def.size dict.now }
    ensures { MatchResult result
        (λ found. (wide_way dict.now j (rule.way_of dict.now j v) ≡ None) × (found ≡ rule.way_of dict.now j v))
        (λ wide. wide_way dict.now j (rule.way_of dict.now j v) ≡ Some wide) }
{
    if v == j {
        return own_way(dict, j, heading);
    }
    if dict.stand(v).is_some() {
        return Ok(None);
    }
    if !dict.has_entry(v, j) {
        return Ok(None);
    }
    basic_way(dict, j, heading, v)
}

/// The shorter of two ways, the first where they are equal.
fn shorter_way(first: Option<Way>, second: Option<Way>) -> Option<Way>
    ensures { result ≡ rule.shorter first second }
{
    match (first, second) {
        (None, second) => second,
        (Some(first), None) => Some(first),
        (Some(first), Some(second)) => {
            if is_below(second.length, first.length) {
                Some(second)
            } else {
                Some(first)
            }
        }
    }
}

/// The shortest way of j, which lets the cost fall, of equal ones the first; the move of the first way whose length is
/// out of range, where there is one.
pub(crate) fn shortest_way(dict: &Dict, j: u32) -> Result<Option<Way>, Move>
    requires few { def.size dict.now < 2 ^ 32 }
    requires entering { j < def.size dict.now }
    ensures shortest { MatchResult result
        (λ found. (first_wide_way dict.now j (def.size dict.now) ≡ None)
        × (found ≡ rule.shortest (def.size dict.now) (rule.way_of dict.now j)))
        (λ wide. first_wide_way dict.now j (def.size dict.now) ≡ Some wide) }
    ensures consistent { def.IsConsistent dict.now }
{
    let heading = falling_heading(dict, j);
    let mut best = None;
    for v in 0..dict.len() {
        match way_to(dict, j, heading, v as u32) {
            Ok(found) => best = shorter_way(best, found),
            Err(wide) => return Err(wide),
        }
    }
    Ok(best)
}

/// Whether j, which lets the cost fall, has a way to a side. Nothing is formed.
pub(crate) fn has_way(dict: &Dict, j: u32) -> bool
    requires few { def.size dict.now < 2 ^ 32 }
    requires entering { j < def.size dict.now }
    ensures { result ≡ is_some (rule.shortest (def.size dict.now) (rule.way_of dict.now j)) }
{
    let heading = falling_heading(dict, j);
    for v in 0..dict.len() {
        let v = v as u32;
        let goal = if v == j {
            goal_ahead(heading, dict.sides(j))
        } else if dict.stand(v).is_none() && dict.has_entry(v, j) {
            basic_goal(dict, j, heading, v)
        } else {
            None
        };
        if goal.is_some() {
            return true;
        }
    }
    false
}

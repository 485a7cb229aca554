//! Which variables are at fault, and which may mend that: the tests of Bland's rule, and the least that passes each.
ghost use Rattle.std.specs.Prelude.{◌≡◌, ◌<◌, ◌^◌, true};
ghost use Rattle.cip_bland.specs.Tables.{least};
ghost use Rattle.cip_bland.specs.Dictionary as def;
ghost use Rattle.cip_bland.specs.Rule as rule;

use crate::headings::{are_crossed, heading_if, is_at_most, outside_way};
use cip_bland::{Heading, Stand};
use cip_dict::Dict;

/// The least variable whose low side is above its high one.
pub(crate) fn least_crossed(dict: &Dict) -> Option<u32>
    requires { def.size dict.now < 2 ^ 32 }
    ensures { result ≡ least (def.size dict.now) (rule.is_crossed dict.now) }
{
    for v in 0..dict.len() {
        if are_crossed(dict.sides(v as u32)) {
            return Some(v as u32);
        }
    }
    None
}

/// Whether variable v is basic and outside its sides.
pub(crate) fn is_outside(dict: &Dict, v: u32) -> bool
    requires { v < def.size dict.now }
    ensures { result ≡ rule.is_outside dict.now v }
{
    if dict.stand(v).is_some() {
        return false;
    }
    let (sides, value) = (dict.sides(v), dict.value(v));
    if let Some(low) = sides.low {
        if !is_at_most(low, value) {
            return true;
        }
    }
    match sides.high {
        Some(high) => !is_at_most(value, high),
        None => false,
    }
}

/// The least basic variable outside its sides.
pub(crate) fn least_outside(dict: &Dict) -> Option<u32>
    requires { def.size dict.now < 2 ^ 32 }
    ensures { result ≡ rule.least_outside dict.now }
{
    for v in 0..dict.len() {
        if is_outside(dict, v as u32) {
            return Some(v as u32);
        }
    }
    None
}

/// The way in which variable i is outside its sides, where it is.
pub(crate) fn outside_heading(dict: &Dict, i: u32) -> Heading
    requires { i < def.size dict.now }
    ensures { result ≡ rule.outside_heading dict.now i }
{
    outside_way(dict.sides(i), dict.value(i))
}

/// Whether variable k may go this way: it is nonbasic, it isn't at the side ahead, and its sides aren't equal.
pub(crate) fn may_go(dict: &Dict, k: u32, heading: Heading) -> bool
    requires { k < def.size dict.now }
    ensures { result ≡ rule.may_go dict.now k heading }
{
    match (heading, dict.stand(k)) {
        (_, None) => false,
        (Heading::Up, Some(Stand::High)) => false,
        (Heading::Down, Some(Stand::Low)) => false,
        _ => !dict.sides(k).is_fixed(),
    }
}

/// The least variable that takes i this way as it goes where it may.
pub(crate) fn least_driving(dict: &Dict, i: u32, heading: Heading) -> Option<u32>
    requires few { def.size dict.now < 2 ^ 32 }
    requires leaving { i < def.size dict.now }
    requires basic { def.is_basic dict.now i ≡ true }
    ensures { result ≡ least (def.size dict.now) (rule.drives dict.now (def.entry dict.now i) heading) }
{
    for at in 0..dict.row_len(i) {
        let (k, above) = dict.row_sign(i, at);
        if may_go(dict, k, heading_if(heading, above)) {
            return Some(k);
        }
    }
    None
}

/// The least variable by which the cost falls.
pub(crate) fn least_improving(dict: &Dict) -> Option<u32>
    requires { def.size dict.now < 2 ^ 32 }
    ensures { result ≡ least (def.size dict.now) (rule.improves dict.now) }
{
    for at in 0..dict.costs_len() {
        let (k, above) = dict.cost_sign(at);
        if may_go(dict, k, heading_if(Heading::Down, above)) {
            return Some(k);
        }
    }
    None
}

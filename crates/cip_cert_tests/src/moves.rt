//! Calls of a dictionary that are made where they can be.
ghost use Rattle.std.specs.Prelude.{◌≡◌, true};
ghost use Rattle.cip_bland.specs.Dictionary.{CanStand};

use cip_dict::{Dict, MoveFault, OutOfRange, Stand};
use cip_frac::Frac;
use cip_lin::Sides;

// an entry, where there is a row
pub(crate) fn entry_at(dict: &Dict, i: u32, j: u32) -> Option<Frac> {
    let len = dict.len();
    if (i as usize) < len && (j as usize) < len && dict.stand(i).is_none() {
        return Some(dict.entry(i, j));
    }
    None
}

// a value, where there is such a variable
pub(crate) fn value_of(dict: &Dict, v: u32) -> Option<Frac> {
    if (v as usize) < dict.len() {
        return Some(dict.value(v));
    }
    None
}

// the entry of the cost on a variable, where there is such a one
pub(crate) fn cost_on(dict: &Dict, v: u32) -> Option<Frac> {
    if (v as usize) < dict.len() {
        return Some(dict.cost_entry(v));
    }
    None
}

// whether a variable is basic, and has an entry that isn't 0
pub(crate) fn has_row(dict: &Dict, i: u32) -> bool {
    (i as usize) < dict.len() && dict.stand(i).is_none() && dict.row_len(i) > 0
}

// whether its row is kept as whole numbers
pub(crate) fn is_row_whole(dict: &Dict, i: u32) -> bool {
    (i as usize) < dict.len()
        && dict.stand(i).is_none()
        && dict.row_len(i) > 0
        && dict.row_number(i, 0).is_some()
}

fn can_stand(sides: Sides, to: Stand) -> bool
    ensures { result ≡ true → CanStand sides to }
{
    match to {
        Stand::Low => sides.low.is_some(),
        Stand::High => sides.high.is_some(),
        Stand::Zero => sides.low.is_none() && sides.high.is_none(),
    }
}

// an exchange, where it can be made
pub(crate) fn exchange(
    dict: &mut Dict,
    i: u32,
    j: u32,
    to: Stand,
) -> Option<Result<(), MoveFault>> {
    let len = dict.len();
    if (i as usize) >= len || (j as usize) >= len {
        return None;
    }
    if dict.stand(i).is_some() || dict.stand(j).is_none() || !can_stand(dict.sides(i), to) {
        return None;
    }
    if dict.entry(i, j).is_zero() {
        return None;
    }
    Some(dict.exchange(i, j, to))
}

// a flip, where it can be made
pub(crate) fn flip(dict: &mut Dict, j: u32) -> Option<Result<(), OutOfRange>> {
    if (j as usize) >= dict.len() || dict.stand(j).is_none() {
        return None;
    }
    let sides = dict.sides(j);
    if sides.low.is_none() || sides.high.is_none() {
        return None;
    }
    Some(dict.flip(j))
}

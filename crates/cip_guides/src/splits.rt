//! Splits at values of the last point.
ghost use Rattle.std.specs.Prelude.{IfSome};
ghost use Rattle.cip_guides.specs.PointSplits.{IsAtValue};

use cip_frac::Frac;
use cip_lin::Sides;
use cip_plugin::Split;
use cip_tighten::{UNIT, rough};

// The greatest size of a number at which a column is split.
const MOST: u128 = 1 << 100;

/// The split of a column at its value, where the column is whole, the value isn't, both halves keep a whole value, and
/// the value isn't far from 0.
pub(crate) fn split_at(whole: &[bool], sides: &[Sides], point: &[Frac], col: u32) -> Option<Split>
    ensures { IfSome result (λ split. IsAtValue whole.now point.now split) }
{
    let place = col as usize;
    if place >= whole.len() || place >= point.len() || place >= sides.len() {
        return None;
    }
    let value = point[place];
    if !whole[place] || value.is_whole() {
        return None;
    }
    let at = value.floor();
    let own = sides[place];
    let is_above = match own.low {
        Some(low) => low.ceil() <= at,
        None => true,
    };
    let is_below = match own.high {
        Some(high) => high.floor() > at,
        None => true,
    };
    if is_above && is_below && at.unsigned_abs() <= MOST {
        Some(Split { col, at })
    } else {
        None
    }
}

/// How far a value roughly lies above the next whole number below it, over 2^24.
pub(crate) fn rough_part(value: Frac) -> i64 {
    rough(value).checked_rem_euclid(UNIT).unwrap_or(0)
}

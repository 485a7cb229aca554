//! Whole columns, and the whole numbers next to a value.
use crate::splits::rough_part;
use cip_frac::Frac;
use cip_tighten::UNIT;

/// Whether a column is whole.
pub(crate) fn is_whole_at(whole: &[bool], col: u32) -> bool {
    match whole.get(col as usize) {
        Some(is_whole) => *is_whole,
        None => false,
    }
}

/// The nearest whole number, the lower one of two; it may be the farther one where both are nearly as far.
pub(crate) fn nearest(value: Frac) -> Frac {
    let below = rough_part(value);
    if UNIT.wrapping_sub(below) < below {
        value.rounded_up()
    } else {
        value.rounded_down()
    }
}

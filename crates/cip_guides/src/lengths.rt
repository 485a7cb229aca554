//! Points whose values have long denominators: exact work on them takes long, and they are seldom feasible.
use cip_frac::Frac;

/// The greatest denominator of a value that isn't long.
pub(crate) const MOST_UNDER: i128 = 1 << 40;

/// Whether a column that isn't whole has a long value.
pub(crate) fn has_long_rest(whole: &[bool], point: &[Frac]) -> bool {
    for (column, value) in point.iter().enumerate() {
        if value.denominator() > MOST_UNDER && whole.get(column) == Some(&false) {
            return true;
        }
    }
    false
}

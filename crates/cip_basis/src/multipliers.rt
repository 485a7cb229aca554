//! Multipliers of rows, rounded.
use crate::fixed::{BITS, narrow, raised, short_bit_length};
use crate::given::number_of;
use crate::lists::item_at;
use crate::variables::Variables;
use cip_lin::Frac;
use std::alloc::AllocError;

// Multipliers are rounded to multiples of 2^-20.
const ROUNDED_BITS: i32 = 20;

const PARTS: i128 = 1 << 20;

// The most bits of such a multiple.
const MOST_BITS: i32 = 62;

/// A row, by its number, with a multiplier that is rounded.
#[derive(Clone, Copy)]
pub struct RowMultiplier {
    /// The row.
    pub row: u32,
    // the multiplier, times 2^20
    times: i64,
}

impl RowMultiplier {
    /// The multiplier, a multiple of 2^-20; 0 where it is out of range, as none is.
    pub fn multiplier(self) -> Frac {
        match Frac::new(i128::from(self.times), PARTS) {
            Ok(value) => value,
            Err(_) => Frac::zero(),
        }
    }
}

/// The multiple of 2^-20 next to a number, away from 0; none where it is out of range.
pub fn rounded_outward(number: Frac) -> Option<Frac> {
    let Ok(parts) = number.mul(Frac::from(PARTS as i64)) else {
        return None;
    };
    let whole = if parts.is_negative() {
        parts.floor()
    } else {
        parts.ceil()
    };
    Frac::new(whole, PARTS).ok()
}

/// A number of the table times a power of two, as a multiple of 2^-20, the nearest; none where that has over 62 bits.
fn rounded(number: i64, power: i32) -> Option<i64> {
    let shift = power.wrapping_add(ROUNDED_BITS).wrapping_sub(BITS as i32);
    if shift < 0 {
        let doubled = raised(i128::from(number), shift.wrapping_add(1));
        return Some(narrow(doubled.wrapping_add(1) >> 1));
    }
    let bits = short_bit_length(number.unsigned_abs()).wrapping_add(shift);
    if bits > MOST_BITS {
        return None;
    }
    Some(narrow(raised(i128::from(number), shift)))
}

/// A number of the table times a power of two, rounded to a multiple of 2^-20; none where that has over 62 bits.
pub(crate) fn rounded_number(number: i64, power: i32) -> Option<Frac> {
    let times = rounded(number, power)?;
    Frac::new(i128::from(times), PARTS).ok()
}

/// Lists the loose rows with what a line takes of them, where that isn't 0: the line's own power of two is given.
/// Answers whether all can be rounded.
pub(crate) fn list_rounded(
    entries: &[i64],
    loose: &[u32],
    variables: &Variables,
    columns: usize,
    own: i32,
    out: &mut Vec<RowMultiplier>,
) -> Result<bool, AllocError> {
    out.clear();
    for (place, number) in loose.iter().enumerate() {
        let variable = *number as usize;
        if variable < columns {
            continue;
        }
        let power = variables.up(variable).wrapping_sub(own);
        let Some(times) = rounded(item_at(entries, place, 0), power) else {
            return Ok(false);
        };
        if times != 0 {
            let row = number_of(variable.wrapping_sub(columns));
            out.push(RowMultiplier { row, times })?;
        }
    }
    Ok(true)
}

//! A combination by the multipliers of a basis that is guessed, which are rounded and mended.
use crate::combos::{empty_combo, put_multiple, row_of};
use crate::given::number_of;
use crate::lists::put_at;
use crate::mending::{Mending, has_side};
use crate::{Given, Guess, Outcome, RowMultiplier};
use cip_frac::Frac;
use cip_lin::Combo;
use std::alloc::{AllocError, Global};

/// Sets the multiplier of a row, unless the side that it takes isn't there.
fn set_multiplier(given: &Given, row: u32, multiplier: Frac, multipliers: &mut [Frac]) {
    let number = row as usize;
    if let Some(row) = given.row(number) {
        if has_side(row, multiplier) {
            put_at(multipliers, number, multiplier);
        }
    }
}

/// Sets the multipliers of rows, or their opposites, by how a guess has ended, and that of the row of a variable that
/// can't be brought between its sides.
fn set_all(given: &Given, list: &[RowMultiplier], outcome: Outcome, multipliers: &mut [Frac]) {
    let (broken, is_turned) = match outcome {
        Outcome::Broken { variable, below } => (row_of(given, variable), below),
        _ => (None, false),
    };
    for item in list {
        let own = item.multiplier();
        let multiplier = if is_turned { own.neg() } else { own };
        set_multiplier(given, item.row, multiplier, multipliers);
    }
    if let Some(row) = broken {
        let one = Frac::one();
        let multiplier = if is_turned { one } else { one.neg() };
        set_multiplier(given, row, multiplier, multipliers);
    }
}

/// The rests of the columns before a row is taken off: the costs, or 0 where an emptiness is to be shown.
fn first_rests(alloc: Global, given: &Given, outcome: Outcome) -> Result<Vec<Frac>, AllocError> {
    let mut rests = Vec::new(alloc);
    if outcome == Outcome::Optimal {
        rests.extend_from_slice(given.costs)?;
    }
    rests.resize(given.columns(), Frac::zero())?;
    Ok(rests)
}

/// The multipliers of all rows at the end of a guess, rounded; none where a number is out of range.
fn rounded_multipliers(
    alloc: Global,
    guess: &Guess,
    given: &Given,
    outcome: Outcome,
) -> Result<Option<Vec<Frac>>, AllocError> {
    let mut list = Vec::new(alloc);
    if !guess.list_multipliers(outcome, &mut list)? {
        return Ok(None);
    }
    let mut multipliers = Vec::new(alloc);
    multipliers.resize(given.rows(), Frac::zero())?;
    set_all(given, list.as_slice(), outcome, multipliers.as_mut_slice());
    Ok(Some(multipliers))
}

/// The rows with multipliers that are mended as a combination; none where that fails.
fn mended_combo(
    alloc: Global,
    given: &Given,
    mending: &mut Mending,
) -> Result<Option<Combo>, AllocError> {
    if !mending.mend(given)? {
        return Ok(None);
    }
    let mut combo = empty_combo(alloc);
    for (number, multiplier) in mending.multipliers.iter().enumerate() {
        put_multiple(given, number_of(number), *multiplier, &mut combo.rows)?;
    }
    Ok(Some(combo))
}

/// A combination by the multipliers at the end of a guess: it bounds the costs where the basis is said to be optimal,
/// and shows that there is no point where a variable can't be brought between its sides, if the check accepts it. None
/// where a number is out of range, or it can't be mended.
pub(crate) fn rounded_combo(
    alloc: Global,
    guess: &Guess,
    given: &Given,
    outcome: Outcome,
) -> Result<Option<Combo>, AllocError> {
    let Some(multipliers) = rounded_multipliers(alloc, guess, given, outcome)? else {
        return Ok(None);
    };
    match first_rests(alloc, given, outcome) {
        Ok(rests) => {
            let mut mending = Mending::new(alloc, multipliers, rests);
            mended_combo(alloc, given, &mut mending)
        }
        Err(_) => Err(AllocError),
    }
}

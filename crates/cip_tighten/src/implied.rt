//! Sides of columns that a row implies in a box.
use cip_frac::Frac;
use cip_lin::{Row, Side, Sides, Term};
use std::alloc::AllocError;

// The greatest size of a side that is told.
const MOST: i128 = 1 << 60;

/// A side of a column that a row implies.
#[derive(Clone, Copy)]
pub struct Implied {
    /// The column.
    pub col: u32,
    /// Which of its sides.
    pub side: Side,
    /// The side, rounded inward for a whole column, and outward to a whole number for another.
    pub value: Frac,
}

/// What is known of a row by one of its sides.
#[derive(Clone, Copy, PartialEq, Eq)]
pub enum Narrowing {
    /// No point of the box keeps it. The last side that was listed leaves its column no value, where there is one.
    Contradiction,
    /// Sides were listed, or there are none.
    Sides,
}

/// Which side of a row it is that implies something.
#[derive(Clone, Copy, PartialEq, Eq)]
pub enum Source {
    /// The row is at least its low side.
    AtLeast,
    /// It is at most its high side.
    AtMost,
}

/// A box, with the whole columns; a column that isn't there has no side, and a flag that isn't counts as continuous.
#[derive(Clone, Copy)]
pub struct Region<'a> {
    /// The sides by column.
    pub sides: &'a [Sides],
    /// Whether each column is whole.
    pub whole: &'a [bool],
    /// Whether sides of continuous columns are told as they are, and not rounded outward.
    pub is_exact: bool,
}

/// What the least of a row's products leave of its limit, as far as they have a least value, and how many have none.
#[derive(Clone, Copy)]
struct Least {
    slack: Frac,
    open: usize,
}

/// A row that is at most a number, lent with a box: its coefficients, perhaps with the other sign.
#[derive(Clone, Copy)]
struct AtMost<'a> {
    terms: &'a [Term],
    is_negated: bool,
    limit: Frac,
    region: Region<'a>,
}

impl<'a> AtMost<'a> {
    /// The coefficient of a term, and the sides of its column: as low side the one at which their product is least.
    fn lent(&self, term: &Term) -> (Frac, Sides) {
        let sides = match self.region.sides.get(term.col as usize) {
            Some(sides) => *sides,
            None => Sides::open(),
        };
        let coef = if self.is_negated {
            term.coef.neg()
        } else {
            term.coef
        };
        let turned = Sides {
            low: sides.high,
            high: sides.low,
        };
        (coef, if coef.is_negative() { turned } else { sides })
    }

    /// A side of a column, rounded: inward for a whole column, and outward for another.
    fn rounded(&self, col: u32, value: Frac, is_high: bool) -> Frac {
        let is_whole = self.region.whole.get(col as usize) == Some(&true);
        if self.region.is_exact && !is_whole {
            value
        } else if is_high == is_whole {
            value.rounded_down()
        } else {
            value.rounded_up()
        }
    }

    /// What the least of its products leave; none where that isn't in range, or more than one has no least value.
    fn least(&self) -> Option<Least> {
        let mut sum = Frac::zero();
        let mut open = 0usize;
        for term in self.terms {
            let (coef, sides) = self.lent(term);
            match sides.low {
                Some(side) if !sum.add_product(&coef, &side) => return None,
                Some(_) => {}
                None => open = open.saturating_add(1),
            }
        }
        match self.limit.sub(sum) {
            Ok(slack) if open <= 1 => Some(Least { slack, open }),
            _ => None,
        }
    }

    /// The side of a term's column that is implied by what the others leave where they are least: as it is, or else
    /// rounded, and only if it is stronger.
    fn implied_by(&self, term: &Term, least: Least, as_it_is: bool) -> Option<Implied> {
        let (coef, sides) = self.lent(term);
        if coef.is_zero() || (!as_it_is && sides.is_fixed()) {
            return None;
        }
        let mut left = least.slack;
        let is_left = match sides.low {
            Some(side) => least.open == 0 && left.add_product(&coef, &side),
            None => least.open == 1,
        };
        let may_narrow = match sides.high {
            Some(side) if is_left && !as_it_is => match coef.mul(side) {
                Ok(most) => most > left,
                Err(_) => false,
            },
            _ => is_left,
        };
        if !may_narrow {
            return None;
        }
        let is_high = coef.is_positive();
        let Ok(mut value) = left.div(coef) else {
            return None;
        };
        if !as_it_is {
            value = self.rounded(term.col, value, is_high);
            let is_stronger = match sides.high {
                Some(own) if is_high => value < own,
                Some(own) => value > own,
                None => true,
            };
            if !is_stronger || value.numerator().unsigned_abs() > MOST as u128 {
                return None;
            }
        }
        Some(Implied {
            col: term.col,
            side: if is_high { Side::High } else { Side::Low },
            value,
        })
    }
}

/// Lists the sides of columns that a side of a row implies in a box, stronger ones alone, as long as there are fewer
/// than so many on the list. `Err` where memory was refused; what was listed up to there stays.
pub fn list_implied(
    row: &Row,
    source: Source,
    region: &Region<'_>,
    most: usize,
    out: &mut Vec<Implied>,
) -> Result<Narrowing, AllocError> {
    let is_negated = source == Source::AtLeast;
    let Some(limit) = (if is_negated { row.low() } else { row.high() }) else {
        return Ok(Narrowing::Sides);
    };
    let lent = AtMost {
        terms: row.terms(),
        is_negated,
        limit: if is_negated { limit.neg() } else { limit },
        region: *region,
    };
    let Some(least) = lent.least() else {
        return Ok(Narrowing::Sides);
    };
    if least.open == 0 && least.slack < Frac::zero() {
        if let Some(term) = lent.terms.first() {
            if let Some(implied) = lent.implied_by(term, least, true) {
                out.push(implied)?;
            }
        }
        return Ok(Narrowing::Contradiction);
    }
    for term in row.terms() {
        if out.len() >= most {
            break;
        }
        if let Some(implied) = lent.implied_by(term, least, false) {
            out.push(implied)?;
        }
    }
    Ok(Narrowing::Sides)
}

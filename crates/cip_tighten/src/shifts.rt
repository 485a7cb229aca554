//! A row in the ways of its columns from their sides.
use crate::numbers::{UNIT, rough};
use crate::stops::Stop;
use crate::sums::Terms;
use crate::tight::short;
use cip_frac::Frac;
use cip_lin::Sides;
use cip_plugin::View;
use std::alloc::{AllocError, Global};

/// From which of its sides a column's way is told.
#[derive(Clone, Copy)]
pub enum Aim {
    /// From the side that is nearer.
    Nearest,
    /// From the side that leaves the coefficient above 0.
    Positive,
    /// As `Positive` for a continuous column, else as `Nearest`.
    Rounding,
}

/// A column's way from one of its sides, and the coefficient of that in a row.
#[derive(Clone, Copy)]
pub struct Shift {
    /// The column.
    pub col: u32,
    /// The coefficient of the way.
    pub coef: i64,
    /// How long the way roughly is at the point, over 2^24.
    pub way: i64,
    /// The side; none for a whole column without sides, whose way is its value.
    pub side: Option<Frac>,
    /// Whether the column is whole.
    pub is_whole: bool,
    /// Whether the side is the high one.
    pub is_turned: bool,
    /// Whether the sides are there and differ by 1.
    pub is_unit: bool,
}

impl Shift {
    /// Whether the column stands at neither of its sides.
    pub fn is_between(&self) -> bool {
        self.way > 0 && !(self.is_unit && self.way >= UNIT)
    }

    /// What the column's coefficient is where that of its way is this one.
    pub fn column_coefficient(&self, number: i64) -> i64 {
        if self.is_turned {
            number.wrapping_neg()
        } else {
            number
        }
    }
}

/// The sides of a column in the node's box, its value at a point, and whether it is whole; none where there is no such
/// column, or no value.
pub fn place_of(view: &View<'_>, point: &[Frac], col: u32) -> Option<(Sides, Frac, bool)> {
    let place = col as usize;
    let sides = view.bounds.as_slice().get(place);
    match (sides, point.get(place), view.whole.get(place)) {
        (Some(sides), Some(value), Some(whole)) => Some((*sides, *value, *whole)),
        _ => None,
    }
}

/// Whether two sides are there and differ by 1.
fn is_unit(sides: Sides) -> bool {
    match (sides.low, sides.high) {
        (Some(low), Some(high)) => match high.sub(low) {
            Ok(width) => width == Frac::one(),
            Err(_) => false,
        },
        _ => false,
    }
}

/// The way of a column with this coefficient.
fn shift_of(view: &View<'_>, point: &[Frac], term: (u32, i64), aim: Aim) -> Option<Shift> {
    let (sides, value, is_whole) = place_of(view, point, term.0)?;
    let by_sign = match aim {
        Aim::Nearest => false,
        Aim::Positive => true,
        Aim::Rounding => !is_whole,
    };
    let at = rough(value);
    let is_turned = match (sides.low, sides.high) {
        _ if by_sign => term.1 <= 0,
        (Some(low), Some(high)) => rough(high).wrapping_sub(at) < at.wrapping_sub(rough(low)),
        (_, high) => high.is_some(),
    };
    let side = if is_turned { sides.high } else { sides.low };
    let way = match side {
        None if !is_whole || by_sign => return None,
        Some(side) if is_whole && !side.is_whole() => return None,
        Some(from) => at.wrapping_sub(rough(from)),
        None => at,
    };
    let sign = if is_turned { -1 } else { 1 };
    Some(Shift {
        col: term.0,
        coef: term.1.wrapping_mul(sign),
        way: way.wrapping_mul(sign),
        side,
        is_whole,
        is_turned,
        is_unit: is_unit(sides),
    })
}

/// Lists for each column its way from the nearer side, with the coefficient 1; none where such a way isn't told. `Err`
/// where memory was refused.
pub fn list_nearest(
    view: &View<'_>,
    point: &[Frac],
    ways: &mut Vec<Option<Shift>>,
) -> Result<(), AllocError> {
    ways.clear();
    for col in 0..short(point.len()) {
        ways.push(shift_of(view, point, (col, 1), Aim::Nearest))?;
    }
    Ok(())
}

/// A row in the ways of its columns, which is at most its right side.
#[derive(Drop)]
pub struct Shifted {
    /// The ways, by rising column.
    pub items: Vec<Shift>,
    /// What the ways with their coefficients are at most.
    pub right: Frac,
    /// Whether a whole column of it has a value that isn't.
    pub is_fractional: bool,
}

impl Shifted {
    /// No column.
    pub fn new(alloc: Global) -> Shifted {
        Shifted {
            items: Vec::new(alloc),
            right: Frac::zero(),
            is_fractional: false,
        }
    }

    /// Takes a row that is at most its right side, with the ways of a point. `GaveUp` where a side that is wanted isn't
    /// there, a side of a whole column isn't whole, or a number leaves the range; `NoMemory` where memory was refused.
    /// It has nothing of use then.
    pub fn take(
        &mut self,
        view: &View<'_>,
        point: &[Frac],
        terms: &Terms,
        right: Frac,
        aim: Aim,
    ) -> Result<(), Stop> {
        self.begin(right);
        for term in terms {
            let Some(item) = shift_of(view, point, *term, aim) else {
                return Err(Stop::GaveUp);
            };
            self.add(item, term.1)?;
        }
        Ok(())
    }

    /// Takes a row that is at most its right side, with ways that were listed by `list_nearest`. Errors come as of
    /// `take`.
    pub fn take_listed(
        &mut self,
        ways: &[Option<Shift>],
        terms: &Terms,
        right: Frac,
    ) -> Result<(), Stop> {
        self.begin(right);
        for term in terms {
            let Some(Some(way)) = ways.get(term.0 as usize) else {
                return Err(Stop::GaveUp);
            };
            let mut item = *way;
            item.coef = item.column_coefficient(term.1);
            self.add(item, term.1)?;
        }
        Ok(())
    }

    /// Begins with no column.
    fn begin(&mut self, right: Frac) {
        self.items.clear();
        self.right = right;
        self.is_fractional = false;
    }

    /// Adds the way of a column with this coefficient.
    fn add(&mut self, item: Shift, coef: i64) -> Result<(), Stop> {
        if let Some(side) = item.side {
            if !self
                .right
                .add_product(&Frac::from(coef.wrapping_neg()), &side)
            {
                return Err(Stop::GaveUp);
            }
        }
        self.is_fractional |= item.is_whole && item.way.checked_rem(UNIT) != Some(0);
        self.items.push(item)?;
        Ok(())
    }

    /// The row with the other sign, in the same ways.
    pub fn turn(&mut self) {
        for item in self.items.iter_mut() {
            item.coef = item.coef.wrapping_neg();
        }
        self.right = self.right.neg();
    }

    /// Tells the way of a column whose sides differ by 1, by its place, from the other side. `GaveUp` where a number
    /// leaves the range.
    pub fn flip(&mut self, place: usize) -> Result<(), Stop> {
        let Some(item) = self.items.get_mut(place) else {
            return Ok(());
        };
        let Some(from) = item.side else {
            return Ok(());
        };
        let times = Frac::from(item.coef.wrapping_neg());
        let by = Frac::from(if item.is_turned { -1 } else { 1 });
        let Ok(side) = from.add(by) else {
            return Err(Stop::GaveUp);
        };
        if !self.right.add_product(&times, &Frac::one()) {
            return Err(Stop::GaveUp);
        }
        item.side = Some(side);
        item.coef = item.coef.wrapping_neg();
        item.way = UNIT.wrapping_sub(item.way);
        item.is_turned = !item.is_turned;
        Ok(())
    }
}

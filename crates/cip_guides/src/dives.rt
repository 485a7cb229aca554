//! A dive: columns are fixed one after another, and behind each what rows imply is taken.
use crate::shares::Share;
use crate::splits::rough_part;
use crate::wholes::{is_whole_at, nearest};
use cip_frac::Frac;
use cip_lin::{Row, Side, Sides};
use cip_plugin::View;
use cip_tighten::{Implied, Narrowing, Region, Source, UNIT, Watched, list_implied, short};
use std::alloc::{AllocError, Global};

// The most columns of a dive whose first value is given up for another.
const MOST_TURNS: usize = 64;

// The most rows that are looked at behind a column that is fixed.
const MOST_ROWS: usize = 1 << 20;

/// A column by the order in which it is fixed: first whole columns, the nearest to a whole value first.
#[derive(Clone, Copy, PartialEq, Eq, PartialOrd, Ord)]
struct Turn {
    distance: i64,
    col: u32,
}

/// A box in work, and what is needed to go back to an earlier one.
#[derive(Drop)]
pub(crate) struct Dive {
    pub(crate) watched: Watched,
    sides: Vec<Sides>,
    before: Vec<(u32, Sides)>,
    implied: Vec<Implied>,
    turns: Vec<Turn>,
    turned: usize,
}

/// The value between a column's sides that is nearest to another, of a whole column a whole one; none where no value
/// lies between them.
fn nearest_between(sides: Sides, is_whole: bool, value: Frac) -> Option<Frac> {
    let mut inner = sides;
    let mut first = value;
    if is_whole {
        first = nearest(value);
        if let Some(low) = sides.low {
            inner.low = Some(low.rounded_up());
        }
        if let Some(high) = sides.high {
            inner.high = Some(high.rounded_down());
        }
    }
    if let Some(low) = inner.low {
        if first < low {
            first = low;
        }
    }
    if let Some(high) = inner.high {
        if first > high {
            first = high;
        }
    }
    if inner.cross() { None } else { Some(first) }
}

/// The value next to the first one of a whole column, on the side on which the point lies, if it lies between the
/// sides; else on the other side.
fn second(sides: Sides, first: Frac, value: Frac) -> Option<Frac> {
    let (Ok(above), Ok(below)) = (first.add(Frac::one()), first.sub(Frac::one())) else {
        return None;
    };
    let (near, far) = if value > first {
        (above, below)
    } else {
        (below, above)
    };
    if sides.contains(near) {
        Some(near)
    } else if sides.contains(far) {
        Some(far)
    } else {
        None
    }
}

impl Dive {
    /// No box. It takes no memory.
    pub(crate) fn new(alloc: Global) -> Dive {
        Dive {
            watched: Watched::new(alloc),
            sides: Vec::new(alloc),
            before: Vec::new(alloc),
            implied: Vec::new(alloc),
            turns: Vec::new(alloc),
            turned: 0,
        }
    }

    /// The sides of a column.
    fn sides_of(&self, col: u32) -> Sides {
        match self.sides.get(col as usize) {
            Some(sides) => *sides,
            None => Sides::open(),
        }
    }

    /// Takes the node's box, in which no row waits, and lists the columns in the order in which they are fixed.
    fn begin(&mut self, view: &View<'_>, point: &[Frac]) -> Result<(), AllocError> {
        self.watched.calm();
        self.before.clear();
        self.turned = 0;
        self.sides.clear();
        self.sides.extend_from_slice(view.bounds.as_slice())?;
        self.turns.clear();
        for (place, value) in point.iter().enumerate() {
            let col = short(place);
            let mut distance = i64::MAX;
            if is_whole_at(view.whole, col) {
                let below = rough_part(*value);
                distance = below.min(UNIT.wrapping_sub(below));
            }
            self.turns.push(Turn { distance, col })?;
        }
        self.turns.sort_unstable();
        Ok(())
    }

    /// Takes sides of a column, has its rows wait, and answers whether it has a value left.
    fn set(&mut self, col: u32, sides: Sides) -> Result<bool, AllocError> {
        let Some(own) = self.sides.get_mut(col as usize) else {
            return Ok(false);
        };
        let old = *own;
        *own = sides;
        self.before.push((col, old))?;
        self.watched.wait_for_column(col)?;
        Ok(!sides.cross())
    }

    /// Takes what a row by one of its sides implies, and answers whether the box may have a point.
    fn narrow_by(&mut self, whole: &[bool], row: &Row, source: Source) -> Result<bool, AllocError> {
        let region = Region {
            sides: self.sides.as_slice(),
            whole,
            is_exact: true,
        };
        self.implied.clear();
        let narrowing = list_implied(row, source, &region, usize::MAX, &mut self.implied)?;
        if narrowing == Narrowing::Contradiction {
            return Ok(false);
        }
        for place in 0..self.implied.len() {
            let Some(item) = self.implied.get(place).copied() else {
                return Ok(false);
            };
            let mut sides = self.sides_of(item.col);
            match item.side {
                Side::Low => sides.low = Some(item.value),
                Side::High => sides.high = Some(item.value),
            }
            if !self.set(item.col, sides)? {
                return Ok(false);
            }
        }
        Ok(true)
    }

    /// Fixes a column, takes what the rows imply that wait, and answers whether the box may have a point; not where the
    /// share is spent.
    fn fix(
        &mut self,
        view: &View<'_>,
        col: u32,
        value: Frac,
        share: &mut Share,
    ) -> Result<bool, AllocError> {
        let sides = Sides {
            low: Some(value),
            high: Some(value),
        };
        if !self.set(col, sides)? {
            return Ok(false);
        }
        for _ in 0..MOST_ROWS {
            let Some(number) = self.watched.next() else {
                return Ok(true);
            };
            let is_kept = match view.own.get(number as usize) {
                Some(row) => {
                    share.spend(row.terms().len())
                        && self.narrow_by(view.whole, row, Source::AtLeast)?
                        && self.narrow_by(view.whole, row, Source::AtMost)?
                }
                None => false,
            };
            self.watched.end(number);
            if !is_kept {
                return Ok(false);
            }
        }
        Ok(false)
    }

    /// Fixes a column near its value, or a whole one at the value next to that where no point is left, and answers
    /// whether the box may have a point.
    fn fix_near(
        &mut self,
        view: &View<'_>,
        col: u32,
        value: Frac,
        share: &mut Share,
    ) -> Result<bool, AllocError> {
        let is_whole = is_whole_at(view.whole, col);
        let sides = self.sides_of(col);
        let Some(first) = nearest_between(sides, is_whole, value) else {
            return Ok(false);
        };
        if sides.is_fixed() {
            return Ok(true);
        }
        let mark = self.before.len();
        if self.fix(view, col, first, share)? {
            return Ok(true);
        }
        for _ in mark..self.before.len() {
            if let Some((changed, old)) = self.before.pop() {
                if let Some(own) = self.sides.get_mut(changed as usize) {
                    *own = old;
                }
            }
        }
        self.watched.calm();
        if self.turned >= MOST_TURNS || !is_whole {
            return Ok(false);
        }
        self.turned = self.turned.saturating_add(1);
        match second(self.sides_of(col), first, value) {
            Some(other) => self.fix(view, col, other, share),
            None => Ok(false),
        }
    }

    /// Fixes the columns of a node near the values of a point, and answers whether the box that is left may be a point
    /// of the program.
    pub(crate) fn go(
        &mut self,
        view: &View<'_>,
        point: &[Frac],
        share: &mut Share,
    ) -> Result<bool, AllocError> {
        self.begin(view, point)?;
        for place in 0..self.turns.len() {
            let Some(turn) = self.turns.get(place).copied() else {
                return Ok(false);
            };
            let Some(value) = point.get(turn.col as usize) else {
                return Ok(false);
            };
            if !self.fix_near(view, turn.col, *value, share)? {
                return Ok(false);
            }
        }
        Ok(true)
    }

    /// The low sides of the box, as far as they are there.
    pub(crate) fn values(&self, alloc: Global) -> Result<Vec<Frac>, AllocError> {
        let mut values = Vec::new(alloc);
        for sides in &self.sides {
            if let Some(low) = sides.low {
                values.push(low)?;
            }
        }
        Ok(values)
    }
}

//! What splits cost, by column and direction.
use cip_tighten::UNIT;
use std::alloc::{AllocError, Global};

/// Which half of a split.
#[derive(Clone, Copy)]
pub(crate) enum Direction {
    Down,
    Up,
}

/// A mean of costs, each of which is told roughly, over 2^24.
#[derive(Clone, Copy)]
struct Mean {
    sum: i64,
    count: u32,
}

/// A mean for each direction.
#[derive(Clone, Copy)]
struct Means {
    down: Mean,
    up: Mean,
}

// No cost.
const NONE: Means = Means {
    down: Mean { sum: 0, count: 0 },
    up: Mean { sum: 0, count: 0 },
};

impl Means {
    /// Adds a cost of a direction.
    fn add(&mut self, direction: Direction, cost: i64) {
        let mean = match direction {
            Direction::Down => &mut self.down,
            Direction::Up => &mut self.up,
        };
        mean.sum = mean.sum.saturating_add(cost);
        mean.count = mean.count.saturating_add(1);
    }

    /// The mean of a direction, where there is one.
    fn value(&self, direction: Direction) -> Option<i64> {
        let mean = match direction {
            Direction::Down => self.down,
            Direction::Up => self.up,
        };
        mean.sum.checked_div(i64::from(mean.count))
    }
}

/// What the linear program's cost rose by for each 1 by which a column was moved, roughly, by column and direction, and
/// for all columns.
#[derive(Drop)]
pub(crate) struct Learnt {
    by_column: Vec<Means>,
    all: Means,
}

impl Learnt {
    /// Nothing. It takes no memory.
    pub(crate) fn new(alloc: Global) -> Learnt {
        Learnt {
            by_column: Vec::new(alloc),
            all: NONE,
        }
    }

    /// Begins with so many columns. `Err` where memory was refused.
    pub(crate) fn begin(&mut self, columns: usize) -> Result<(), AllocError> {
        self.all = NONE;
        self.by_column.clear();
        self.by_column.resize(columns, NONE)
    }

    /// Adds that a cost rose by so much as a column was moved by so much in a direction.
    pub(crate) fn add(&mut self, col: u32, direction: Direction, rise: i64, way: i64) {
        let raised = i128::from(rise.max(0)).wrapping_mul(i128::from(UNIT));
        let cost = raised.checked_div(i128::from(way.max(1))).unwrap_or(0);
        let short = i64::try_from(cost).unwrap_or(i64::MAX);
        self.all.add(direction, short);
        if let Some(means) = self.by_column.get_mut(col as usize) {
            means.add(direction, short);
        }
    }

    /// What moving a column is expected to cost, by a part of 1, at least 1: by its own mean; by that of all where
    /// it has none, and by 1 where those have none.
    fn expected(&self, col: u32, direction: Direction, part: i64) -> i128 {
        let own = match self.by_column.get(col as usize) {
            Some(means) => means.value(direction),
            None => None,
        };
        let cost = match own {
            Some(cost) => cost,
            None => self.all.value(direction).unwrap_or(UNIT),
        };
        let raised = i128::from(cost).wrapping_mul(i128::from(part));
        raised.checked_div(i128::from(UNIT)).unwrap_or(0).max(1)
    }

    /// How good a split of a column is whose value lies so far above a whole number: the product of what both halves
    /// are expected to cost.
    pub(crate) fn score(&self, col: u32, part: i64) -> i128 {
        let down = self.expected(col, Direction::Down, part);
        let up = self.expected(col, Direction::Up, UNIT.wrapping_sub(part));
        down.saturating_mul(up)
    }
}

//! Splits that were proposed, found again by the numbers of their halves.
use crate::learnt::Direction;
use std::alloc::{AllocError, Global};

// The most splits that are kept.
const MOST: u64 = 1 << 14;

/// A split, with what the linear program cost there and how far the column's value was above the place, roughly.
#[derive(Clone, Copy)]
pub(crate) struct PastSplit {
    pub(crate) col: u32,
    pub(crate) at: i128,
    pub(crate) cost: i64,
    pub(crate) part: i64,
}

/// The last splits of a search, by their numbers: the halves of split n are the nodes 2n + 1 and 2n + 2.
#[derive(Drop)]
pub(crate) struct PastSplits {
    splits: Vec<(u64, PastSplit)>,
    next: u64,
}

/// At which place a split is kept.
fn place_of(number: u64) -> usize {
    match number.checked_rem(MOST) {
        Some(place) => usize::try_from(place).unwrap_or(0),
        None => 0,
    }
}

impl PastSplits {
    /// None. It takes no memory.
    pub(crate) fn new(alloc: Global) -> PastSplits {
        PastSplits {
            splits: Vec::new(alloc),
            next: 0,
        }
    }

    /// Lets go of all.
    pub(crate) fn begin(&mut self) {
        self.splits.clear();
        self.next = 0;
    }

    /// The split of which a node is a half, with which half it is, where it is kept still.
    pub(crate) fn above(&self, node: u64) -> Option<(PastSplit, Direction)> {
        let number = node.checked_sub(1)?.checked_div(2)?;
        let (kept, split) = *self.splits.get(place_of(number))?;
        let direction = if node.checked_rem(2) == Some(1) {
            Direction::Down
        } else {
            Direction::Up
        };
        if kept == number {
            Some((split, direction))
        } else {
            None
        }
    }

    /// Gives the next split its number, which is above that of a node's own.
    pub(crate) fn count(&mut self, node: u64) -> u64 {
        let above = node.saturating_add(1).checked_div(2).unwrap_or(0);
        let number = self.next.max(above);
        self.next = number.saturating_add(1);
        number
    }

    /// Keeps a split. `Err` where memory was refused.
    pub(crate) fn keep(&mut self, number: u64, split: PastSplit) -> Result<(), AllocError> {
        let place = place_of(number);
        if place >= self.splits.len() {
            self.splits
                .resize(place.saturating_add(1), (number, split))?;
        }
        if let Some(kept) = self.splits.get_mut(place) {
            *kept = (number, split);
        }
        Ok(())
    }
}

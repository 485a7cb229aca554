//! How often rows may be looked at without bringing anything.
use std::alloc::{AllocError, Global};

// How often in a row.
const MOST_TRIES: u8 = 8;

/// How often each row may still be looked at without bringing anything.
#[derive(Drop)]
pub(crate) struct Tries {
    left: Vec<u8>,
    open: usize,
}

impl Tries {
    /// Of no row. It takes no memory.
    pub(crate) fn new(alloc: Global) -> Tries {
        Tries {
            left: Vec::new(alloc),
            open: 0,
        }
    }

    /// Begins with so many rows, of which these are looked at. `Err` where memory was refused.
    pub(crate) fn begin(&mut self, rows: usize, numbers: &[u32]) -> Result<(), AllocError> {
        self.left.clear();
        self.left.resize(rows, 0)?;
        self.open = numbers.len();
        for number in numbers {
            if let Some(left) = self.left.get_mut(*number as usize) {
                *left = MOST_TRIES;
            }
        }
        Ok(())
    }

    /// Whether a row may be looked at.
    pub(crate) fn may_try(&self, number: u32) -> bool {
        match self.left.get(number as usize) {
            Some(left) => *left > 0,
            None => false,
        }
    }

    /// Notes whether a row brought something, which may be looked at.
    pub(crate) fn note(&mut self, number: u32, has_gained: bool) {
        let Some(left) = self.left.get_mut(number as usize) else {
            return;
        };
        if has_gained {
            *left = MOST_TRIES;
            return;
        }
        *left = left.saturating_sub(1);
        let is_spent = *left == 0;
        if is_spent {
            self.open = self.open.saturating_sub(1);
        }
    }

    /// Whether no row may be looked at.
    pub(crate) fn is_spent(&self) -> bool {
        self.open == 0
    }
}

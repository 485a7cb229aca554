//! How much work a heuristic may do, in terms of rows that it looks at.
use cip_lin::Row;

// How many passes over a program a heuristic may do at first, and with each call.
const FIRST_PASSES: usize = 64;

const MORE_PASSES: usize = 4;

// The most that it may do at a time, and that each call adds.
const MOST: usize = 1 << 20;

const MOST_MORE: usize = 1 << 18;

/// What is left of a heuristic's share. Each call adds some passes over the program, or a part of that, and work begins
/// once there is as much as the last work took; twice as much where that came to nothing.
#[derive(Clone, Copy)]
pub(crate) struct Share {
    part: usize,
    pass: usize,
    pub(crate) left: usize,
    wanted: usize,
}

impl Share {
    /// Of no program; the share is divided by so much.
    pub(crate) fn new(part: usize) -> Share {
        Share {
            part,
            pass: 0,
            left: 0,
            wanted: 0,
        }
    }

    /// Begins with a program: a pass takes as much as it has columns and terms.
    pub(crate) fn begin(&mut self, own: &[Row], columns: usize) {
        let mut size = columns;
        for row in own {
            size = size.saturating_add(row.terms().len());
        }
        self.pass = size;
        self.left = self.part_of(FIRST_PASSES, MOST);
        self.wanted = 0;
    }

    /// So many passes, at most so much, divided.
    fn part_of(&self, passes: usize, most: usize) -> usize {
        let whole = self.pass.saturating_mul(passes).min(most);
        whole.checked_div(self.part).unwrap_or(0)
    }

    /// Adds what a call adds, and answers whether work may begin.
    pub(crate) fn may_begin(&mut self) -> bool {
        let more = self.part_of(MORE_PASSES, MOST_MORE);
        self.left = self.left.saturating_add(more).min(MOST);
        self.left > 0 && self.left >= self.wanted
    }

    /// Takes so much, and answers whether it was there.
    pub(crate) fn spend(&mut self, terms: usize) -> bool {
        let is_there = terms <= self.left;
        self.left = self.left.saturating_sub(terms);
        is_there
    }

    /// Notes what work took that began with so much, and whether it brought something.
    pub(crate) fn end(&mut self, before: usize, has_gained: bool) {
        let spent = before.saturating_sub(self.left);
        let wanted = if has_gained {
            spent
        } else {
            spent.saturating_mul(2).max(self.wanted.saturating_mul(2))
        };
        self.wanted = wanted.min(MOST);
    }
}

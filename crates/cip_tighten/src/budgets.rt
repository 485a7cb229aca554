//! How much work a propagator may do, in terms of rows that it looks at.
use cip_lin::Row;

// How many passes over a program it may do at first, and the most that is left over; to look at a row by one of its
// sides counts as its terms.
const FIRST_PASSES: usize = 16;

// Each call adds a pass divided by this.
const PART: usize = 2;

/// What is left of a propagator's work. Each call adds a part of a pass over the program, and work that is begun may
/// take more than is left: then so many calls go by as add that.
#[derive(Clone, Copy)]
pub(crate) struct Budget {
    pass: usize,
    left: usize,
    owed: usize,
}

/// How many terms a program has.
pub(crate) fn terms_of(own: &[Row]) -> usize {
    let mut terms = 0usize;
    for row in own {
        terms = terms.saturating_add(row.terms().len());
    }
    terms
}

impl Budget {
    /// Of no program.
    pub(crate) fn new() -> Budget {
        Budget {
            pass: 0,
            left: 0,
            owed: 0,
        }
    }

    /// Begins with a program.
    pub(crate) fn begin(&mut self, own: &[Row]) {
        self.pass = terms_of(own);
        self.left = self.pass.saturating_mul(FIRST_PASSES);
        self.owed = 0;
    }

    /// Adds what a call adds, and answers whether nothing is owed.
    pub(crate) fn may_begin(&mut self) -> bool {
        let more = self.pass.checked_div(PART).unwrap_or(0).saturating_add(1);
        let rest = more.saturating_sub(self.owed);
        self.owed = self.owed.saturating_sub(more);
        let most = self.pass.saturating_mul(FIRST_PASSES);
        self.left = self.left.saturating_add(rest).min(most);
        self.owed == 0
    }

    /// Takes so much; what isn't there is owed.
    pub(crate) fn spend(&mut self, terms: usize) {
        self.owed = self.owed.saturating_add(terms.saturating_sub(self.left));
        self.left = self.left.saturating_sub(terms);
    }
}

//! What a search did: one entry for each node that it took and ended.
ghost use Rattle.cip_tree.specs.Searched.{SearchedLogsAreLogs};

use cip_domain::Frac;

/// How a node ended.
#[derive(Clone, Copy, PartialEq, Eq)]
pub enum End {
    /// Two new nodes: `low` has a whole column at most `at`, `high` at least `at + 1`; where the choice of the column
    /// was open, it is off in `low` and on in `high`.
    Split {
        col: u32,
        at: i128,
        low: u64,
        high: u64,
    },
    /// No point of the node's box is better than the point held.
    Closed,
    /// The node was put aside.
    Parked,
}

/// A node that was taken and has ended, with the bound that it had then.
#[derive(Clone, Copy, PartialEq, Eq)]
pub struct Logged {
    /// The node's number.
    pub id: u64,
    /// Its bound then, `None` where it had none.
    pub bound: Option<Frac>,
    /// How it ended.
    pub end: End,
}

/// What a tree logs that has the root and the whole columns of a program is a search log of that program, and each
/// search log is such a one.
pub fn searched_logs_are_logs()
    ensures { SearchedLogsAreLogs }
{}

//! What judging a proposal comes to.
ghost use Rattle.std.specs.Prelude.{◌≡◌};
ghost use Rattle.cip_calls.specs.RowsJudged.{judged_of};

use cip_cert::{CutFault, SplitFormFault};
use cip_core::{PostsolveFault, Verdict};
use cip_rows::Added;
use cip_tree::SplitFault;

/// What a proposal names that isn't there, or is too far away. It is looked at before all else.
#[derive(Clone, Copy, PartialEq, Eq)]
pub enum NodeFault {
    /// A point hasn't as many values as the reduced program has columns.
    BadLength,
    /// The reduced program has no column of this number.
    NoSuchColumn,
    /// A number for a whole column has a size above 2^100.
    TooFar,
}

/// Why a proposal is refused.
#[derive(Clone, Copy, PartialEq, Eq)]
pub enum JudgeFault {
    /// By what it names.
    Node(NodeFault),
    /// By the check of its combination.
    Check(CutFault),
    /// The pool has no room for its row.
    Full,
    /// By the way back of its point to the program as read.
    Postsolve(PostsolveFault),
    /// By the test of what its point comes back as.
    Offer(Verdict),
    /// By where it splits.
    Split(SplitFault),
    /// By the check of its split cut.
    SplitForm(SplitFormFault),
}

/// What a proposal comes to.
#[derive(Clone, Copy, PartialEq, Eq)]
pub enum Judged {
    /// It was taken.
    Accepted,
    /// It shows that the node has no improving point.
    Emptied,
    /// Its row is held already.
    Known,
    /// What its point comes back as is feasible, and no cheaper than the point held.
    NotBetter,
    /// It was refused.
    Refused(JudgeFault),
}

/// What a proposal comes to whose row was handed to the pool.
pub(crate) fn judged_row(added: Added) -> Judged
    ensures { result ≡ judged_of added }
{
    match added {
        Added::New(_) => Judged::Accepted,
        Added::Known(_) => Judged::Known,
        Added::Full => Judged::Refused(JudgeFault::Full),
    }
}

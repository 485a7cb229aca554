//! The figures of an answer.
ghost use Rattle.std.specs.Prelude.{◌≡◌, ℕ, List};
ghost use Rattle.cip_search.specs.Figures.{status_word, exit_status};
ghost use Rattle.cip_report.specs.Answers.{status_of};

use cip_events::Trace;
use cip_frac::Frac;
use cip_leaf::Shown;

/// How a search ended.
#[derive(Drop)]
pub enum Ended {
    /// No feasible point is better than the one held.
    Optimal,
    /// No point is feasible.
    Infeasible,
    /// The cost falls without end from the point that is held.
    Unbounded {
        /// By how much each column changes, in their order.
        ray: Vec<Frac>,
    },
    /// The node budget is spent, and an open node matters.
    NodeLimit,
    /// The cost less the bound is above 0 and at most the gap that was asked for.
    Gap,
    /// No node that matters is open, and points that are better than the one held can only be those of leaves that
    /// overflow.
    Wide {
        /// The value of each whole column in such a leaf, by rising column.
        leaf: Vec<Frac>,
        /// Whether each semi-continuous column is on there, by rising column.
        on: Vec<bool>,
        /// What overflows there.
        shown: Shown,
    },
    /// Want of memory.
    NoMemory,
}

impl Ended {
    /// The printed word.
    pub fn word(&self) -> &'static str
        ensures { (rows : List (List ℕ)) → result.now ≡ status_word (status_of rows self.now) }
    {
        match self {
            Ended::Optimal => "optimal",
            Ended::Infeasible => "infeasible",
            Ended::Unbounded { .. } => "unbounded",
            Ended::NodeLimit => "nodelimit",
            Ended::Gap => "gap",
            Ended::Wide { .. } => "wide",
            Ended::NoMemory => "nomemory",
        }
    }

    /// The exit status.
    pub fn status(&self) -> u8
        ensures { (rows : List (List ℕ)) → result ≡ exit_status (status_of rows self.now) }
    {
        match self {
            Ended::Optimal => 0,
            Ended::Infeasible => 0,
            Ended::Unbounded { .. } => 0,
            Ended::NodeLimit => 10,
            Ended::Gap => 13,
            Ended::Wide { .. } => 11,
            Ended::NoMemory => 6,
        }
    }
}

/// A feasible point and its cost in the minimised form.
#[derive(Drop)]
pub struct Held {
    /// The cost of the point in the minimised form.
    pub cost: Frac,
    /// The value of each column, in their order.
    pub point: Vec<Frac>,
}

/// What a search found, of which all but the number of nodes is printed. Cost and bound are those of the minimised
/// form.
#[derive(Drop)]
pub struct Answer {
    /// How the search ended.
    pub ended: Ended,
    /// The best point found, if there is one.
    pub best: Option<Held>,
    /// What no feasible point costs less than, if there is such a bound.
    pub bound: Option<Frac>,
    /// How many nodes were taken and have ended.
    pub nodes: u64,
    /// What was written of the calls of plugins, if that was kept.
    pub trace: Option<Trace>,
}

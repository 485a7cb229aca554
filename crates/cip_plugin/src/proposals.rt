//! What plugins propose and wish. Nothing is checked here: the search judges each proposal before anything changes.
use cip_cert::SplitCut;
use cip_model::{Combo, Frac, Side};

/// A row that a combination implies; or a split, where there is one, and the combination counts for nothing.
#[derive(Drop)]
pub struct Cut {
    /// The combination.
    pub combo: Combo,
    /// Whether the row is rounded up.
    pub round: bool,
    /// Whether it is derived in the node's box, and valid there alone; else in the root's.
    pub local: bool,
    /// The split that implies it, where one does.
    pub split: Option<SplitCut>,
}

/// A side of a column that a combination implies in the node's box.
#[derive(Drop)]
pub struct Reduction {
    /// The column.
    pub col: u32,
    /// Which side.
    pub side: Side,
    /// Its value.
    pub value: Frac,
    /// The combination.
    pub combo: Combo,
}

/// A point of the reduced program.
#[derive(Drop)]
pub struct Guess {
    /// A value for each column.
    pub values: Vec<Frac>,
}

/// A split of the node: the column is at most `at` in one half, and at least `at + 1` in the other.
#[derive(Clone, Copy, PartialEq, Eq)]
pub struct Split {
    /// The column.
    pub col: u32,
    /// The place.
    pub at: i128,
}

/// What a handler answers about the point of the last linear program.
#[derive(Drop)]
pub enum Enforced {
    /// The node has no improving point, by this combination.
    Cutoff(Combo),
    /// A side became stronger.
    Reduced(Reduction),
    /// A row is there that the point breaks.
    Separated(Cut),
    /// The node is split.
    Branched(Split),
    /// The point doesn't keep the handler's rows.
    Infeasible,
    /// It keeps them.
    Feasible,
}

/// What the search judges.
#[derive(Drop)]
pub enum Proposal {
    /// A separator's or a handler's cut.
    Cut(Cut),
    /// A propagator's or a handler's reduction.
    Reduction(Reduction),
    /// A heuristic's point.
    Guess(Guess),
    /// A rule's split.
    Split(Split),
    /// A handler's answer about a point.
    Enforcement(Enforced),
}

/// A change of the plugins themselves.
#[derive(Clone, Copy)]
pub enum Wish {
    /// The plugin at this place of the shelf is included.
    Include(u32),
    /// The plugin of this number is called no more, until it is enabled.
    Disable(u32),
    /// It is called again.
    Enable(u32),
    /// It is freed.
    Free(u32),
    /// It gets a priority.
    Priority(u32, i32),
}

//! What happens in the search, as plugins are told of it.
ghost use Rattle.std.specs.Prelude.{◌≡◌};
ghost use Rattle.cip_events.specs.Events.{event_at, place_of};

/// What happened.
#[derive(Clone, Copy, PartialEq, Eq)]
pub enum EventKind {
    /// A node was taken up.
    NodeFocused,
    /// A node ended with a point.
    NodeFeasible,
    /// A node ended without one.
    NodeInfeasible,
    /// A node was split.
    NodeBranched,
    /// The node's first linear program was solved.
    FirstLpSolved,
    /// A linear program was solved.
    LpSolved,
    /// A point was taken as the best so far.
    BestSolFound,
    /// A feasible point was no better than the one held.
    PoorSolFound,
    /// The low side of a column became stronger.
    LbTightened,
    /// The high side of a column became stronger.
    UbTightened,
    /// A row was added to the pool.
    RowAdded,
    /// A plugin was included.
    PluginIncluded,
    /// A plugin was freed.
    PluginFreed,
}

impl EventKind {
    /// The number of the kind, from 0 in the order above.
    pub fn place(self) -> usize
        ensures { result ≡ place_of self }
    {
        match self {
            EventKind::NodeFocused => 0,
            EventKind::NodeFeasible => 1,
            EventKind::NodeInfeasible => 2,
            EventKind::NodeBranched => 3,
            EventKind::FirstLpSolved => 4,
            EventKind::LpSolved => 5,
            EventKind::BestSolFound => 6,
            EventKind::PoorSolFound => 7,
            EventKind::LbTightened => 8,
            EventKind::UbTightened => 9,
            EventKind::RowAdded => 10,
            EventKind::PluginIncluded => 11,
            EventKind::PluginFreed => 12,
        }
    }
}

/// Something that happened while a node was in work.
#[derive(Clone, Copy, PartialEq, Eq)]
pub struct Event {
    /// What happened.
    pub kind: EventKind,
    /// The number of the node in work.
    pub node: u64,
    /// The column of a side that became stronger; `None` with every other kind.
    pub col: Option<u32>,
}

impl Event {
    /// An event of a node, without a column.
    pub fn at(node: u64, kind: EventKind) -> Event
        ensures { result ≡ event_at node kind }
    {
        Event {
            kind,
            node,
            col: None,
        }
    }
}

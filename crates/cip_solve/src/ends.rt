//! How the work on a node with plugins ends.
use cip_node::{Mark, NodeEnd};

/// How a node ended, and what was met in the work on it.
#[derive(Drop)]
pub struct Done {
    /// How it ended.
    pub end: NodeEnd,
    /// What its last linear program met, if that showed nothing.
    pub mark: Option<Mark>,
    /// Whether it was split at a place that a plugin proposed.
    pub proposed: bool,
    /// Whether a point was taken as it ended.
    pub taken: bool,
}

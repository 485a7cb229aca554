//! What the work on a node has come to.
use cip_node::Found;
use cip_plugin::Split;

/// What the work on a node has come to, while the node is in work.
#[derive(Drop)]
pub(crate) enum Reached {
    /// Its box has no improving point.
    Empty,
    /// It is a leaf.
    Leaf,
    /// It goes on with what its last linear program found.
    Open(Found),
    /// So it does, and a plugin wants to split it there.
    Place(Found, Split),
}

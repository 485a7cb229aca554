//! The nodes of a search: those that are open, by bound; those that are parked; what is kept of their boxes, which is
//! what differs from node to node; and the region of the node in work, which is reached from that of the one before.
#![tactic(auto)]

mod closed;
mod kept;
mod logs;
mod nodes;
mod notes;
mod origins;
mod queue;
mod splits;
mod trees;
mod walks;

pub use logs::{End, Logged, searched_logs_are_logs};
pub use nodes::Node;
pub use splits::SplitFault;
pub use trees::Tree;

//! The order in which plugins are called.
use std::cmp::Reverse;

/// A plugin by its priority and its number: who has a higher priority comes first, and of equal ones who has the lower
/// number.
#[derive(Clone, Copy, PartialEq, Eq, PartialOrd, Ord)]
pub struct Key {
    /// Its priority.
    pub rank: Reverse<i32>,
    /// Its number.
    pub id: u32,
}

//! What was written of the calls of plugins.
use crate::names::Name;
use crate::words::Word;

/// A line of the trace. Lines are numbered from 1 in their order.
#[derive(Clone, Copy)]
pub struct TraceLine {
    /// The number of the plugin.
    pub id: u32,
    /// What was written of it.
    pub word: Word,
}

/// The lines that were kept, with the names of the plugins that they speak of.
#[derive(Drop)]
pub struct Trace {
    /// The name of each plugin that was included, by its number.
    pub names: Vec<Name>,
    /// The lines, in order.
    pub lines: Vec<TraceLine>,
}

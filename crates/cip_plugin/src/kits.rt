//! The plugins of a run.
use crate::boxed::AnyPlugin;

/// A plugin that is done with.
#[derive(Drop)]
pub struct Spent {
    /// Its number; `None` where it was never included.
    pub id: Option<u32>,
    /// The plugin.
    pub plugin: AnyPlugin,
}

/// The plugins that a run is given, and those that it gives back.
#[derive(Drop)]
pub struct Kit {
    /// Those that are included as the search begins, in this order.
    pub start: Vec<AnyPlugin>,
    /// Those that a wish may include, by their places from 0.
    pub shelf: Vec<AnyPlugin>,
    /// Those that are done with.
    pub spent: Vec<Spent>,
}

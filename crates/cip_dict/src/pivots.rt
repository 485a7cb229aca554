//! Exchanges: what leaves, what enters, and what lines are written by.
use cip_bland::Stand;
use cip_frac::Frac;

/// An exchange that is asked for.
#[derive(Clone, Copy)]
pub(crate) struct Exchange {
    /// The basic variable that leaves.
    pub(crate) leaving: u32,
    /// The nonbasic variable that enters.
    pub(crate) entering: u32,
    /// Where the one that leaves stands then.
    pub(crate) to: Stand,
}

/// An exchange as its lines are written.
#[derive(Clone, Copy)]
pub(crate) struct Pivot<'a> {
    /// Where all variables stand before it.
    pub(crate) standing: &'a [Option<Stand>],
    /// The basic variable that leaves.
    pub(crate) leaving: u32,
    /// The nonbasic variable that enters.
    pub(crate) entering: u32,
    /// 1 over the entry of the one that leaves on the one that enters.
    pub(crate) inverse: Frac,
}

//! The rankings that a roster keeps between calls.
ghost use Rattle.std.specs.Prelude.{◌≡◌};
ghost use Rattle.cip_roster.specs.KeptRankings.{no_rankings, ranking_of, with_ranking, without_ranking};

use cip_plugin::{Key, Kind};

/// For each kind its live and enabled plugins in the order in which they are called, where that was made and still
/// holds.
#[derive(Drop)]
pub(crate) struct Rankings {
    pub(crate) separators: Option<Vec<Key>>,
    pub(crate) propagators: Option<Vec<Key>>,
    pub(crate) pricers: Option<Vec<Key>>,
    pub(crate) heuristics: Option<Vec<Key>>,
    pub(crate) branchers: Option<Vec<Key>>,
    pub(crate) enforcers: Option<Vec<Key>>,
    pub(crate) listeners: Option<Vec<Key>>,
}

impl Rankings {
    /// None is kept.
    pub(crate) fn none() -> Rankings
        ensures { result ≡ no_rankings }
    {
        Rankings {
            separators: None,
            propagators: None,
            pricers: None,
            heuristics: None,
            branchers: None,
            enforcers: None,
            listeners: None,
        }
    }

    /// None is kept any more.
    pub(crate) fn clear(&mut self)
        ensures { self.new ≡ no_rankings }
    {
        *self = Rankings::none();
    }

    /// Takes out the ranking of a kind, if it is kept.
    pub(crate) fn take(&mut self, kind: Kind) -> Option<Vec<Key>>
        ensures taken { result ≡ ranking_of kind self.old }
        ensures left { self.new ≡ without_ranking kind self.old }
    {
        match kind {
            Kind::Separator => self.separators.take(),
            Kind::Propagator => self.propagators.take(),
            Kind::Pricer => self.pricers.take(),
            Kind::Heuristic => self.heuristics.take(),
            Kind::BranchRule => self.branchers.take(),
            Kind::ConsHandler => self.enforcers.take(),
            Kind::EventHandler => self.listeners.take(),
        }
    }

    /// Keeps the ranking of a kind.
    pub(crate) fn keep(&mut self, kind: Kind, keys: Vec<Key>)
        ensures { self.new ≡ with_ranking kind keys self.old }
    {
        match kind {
            Kind::Separator => self.separators = Some(keys),
            Kind::Propagator => self.propagators = Some(keys),
            Kind::Pricer => self.pricers = Some(keys),
            Kind::Heuristic => self.heuristics = Some(keys),
            Kind::BranchRule => self.branchers = Some(keys),
            Kind::ConsHandler => self.enforcers = Some(keys),
            Kind::EventHandler => self.listeners = Some(keys),
        }
    }
}

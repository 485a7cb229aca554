//! The roster and what is seen of it.
ghost use Rattle.std.specs.Prelude.{◌≡◌, ◌-◌, map, vec_len, vec_capacity};
ghost use Rattle.cip_plugin.specs.Seats.{State};
ghost use Rattle.cip_roster.specs.KeptRankings.{Room};
ghost use Rattle.cip_roster.specs.Shelves.{shown};

use crate::rankings::Rankings;
use crate::slots::Slot;
use cip_events::{Name, TraceLine};
use cip_plugin::{
    AnyPlugin, BranchRule, ConsHandler, EventHandler, Heuristic, Pricer, Propagator, Separator,
};
use std::marker::PhantomData;

/// The plugins of a search: those that were included, by their numbers, and those on the shelf by their places, of
/// which `None` is left once a plugin was included; with the names of those that were included, the trace, and the
/// order in which the plugins of each kind are called, once it was made.
#[derive(Drop)]
pub struct Roster {
    pub(crate) slots: Vec<Slot>,
    pub(crate) shelf: Vec<Option<AnyPlugin>>,
    pub(crate) names: Vec<Name>,
    pub(crate) kept: bool,
    pub(crate) lines: Vec<TraceLine>,
    pub(crate) rankings: Rankings,
    pub(crate) boxes: PhantomData<
        (
            Box<dyn Separator>,
            Box<dyn Propagator>,
            Box<dyn Pricer>,
            Box<dyn Heuristic>,
            Box<dyn BranchRule>,
            Box<dyn ConsHandler>,
            Box<dyn EventHandler>,
        ),
    >,
}

/// What is known of a roster: its state, and what it has ready: room for lines, and rankings of its plugins.
pub trait Seated {
    ghost state: { Self → State };

    ghost room: { Self → Room };

    /// The lines of the trace that are kept.
    fn trace(&self) -> &[TraceLine]
        ensures { result.now ≡ (state self.now).lines };
}

impl Seated for Roster {
    ghost use Rattle.cip_plugin.specs.declared.boxed.AnyPlugin.TheVariants as any;
    ghost use Rattle.cip_plugin.specs.declared.kinds.Kind.TheVariants as kinds;
    ghost use Rattle.cip_plugin.specs.Who.{Who};

    ghost state = { λ r. record {
      seats = map (λ s. record {
        who = elim s.plugin as (λ _. Who) [
          | any.Separator b ↦ record {
            told = (Separator-box b).Plugin.told b.value;
            label = (Separator-box b).Plugin.label b.value;
            kind = kinds.Separator;
          }
          | any.Propagator b ↦ record {
            told = (Propagator-box b).Plugin.told b.value;
            label = (Propagator-box b).Plugin.label b.value;
            kind = kinds.Propagator;
          }
          | any.Pricer b ↦ record {
            told = (Pricer-box b).Plugin.told b.value;
            label = (Pricer-box b).Plugin.label b.value;
            kind = kinds.Pricer;
          }
          | any.Heuristic b ↦ record {
            told = (Heuristic-box b).Plugin.told b.value;
            label = (Heuristic-box b).Plugin.label b.value;
            kind = kinds.Heuristic;
          }
          | any.BranchRule b ↦ record {
            told = (BranchRule-box b).Plugin.told b.value;
            label = (BranchRule-box b).Plugin.label b.value;
            kind = kinds.BranchRule;
          }
          | any.ConsHandler b ↦ record {
            told = (ConsHandler-box b).Plugin.told b.value;
            label = (ConsHandler-box b).Plugin.label b.value;
            kind = kinds.ConsHandler;
          }
          | any.EventHandler b ↦ record {
            told = (EventHandler-box b).Plugin.told b.value;
            label = (EventHandler-box b).Plugin.label b.value;
            kind = kinds.EventHandler;
          }
        ];
        priority = s.priority;
        interest = s.interest;
        standing = record { stage = s.stage; on = s.enabled };
        offs = s.offs;
      }) r.slots.items;
      places = map (shown (λ p. elim p as (λ _. Who) [
        | any.Separator b ↦ record {
          told = (Separator-box b).Plugin.told b.value;
          label = (Separator-box b).Plugin.label b.value;
          kind = kinds.Separator;
        }
        | any.Propagator b ↦ record {
          told = (Propagator-box b).Plugin.told b.value;
          label = (Propagator-box b).Plugin.label b.value;
          kind = kinds.Propagator;
        }
        | any.Pricer b ↦ record {
          told = (Pricer-box b).Plugin.told b.value;
          label = (Pricer-box b).Plugin.label b.value;
          kind = kinds.Pricer;
        }
        | any.Heuristic b ↦ record {
          told = (Heuristic-box b).Plugin.told b.value;
          label = (Heuristic-box b).Plugin.label b.value;
          kind = kinds.Heuristic;
        }
        | any.BranchRule b ↦ record {
          told = (BranchRule-box b).Plugin.told b.value;
          label = (BranchRule-box b).Plugin.label b.value;
          kind = kinds.BranchRule;
        }
        | any.ConsHandler b ↦ record {
          told = (ConsHandler-box b).Plugin.told b.value;
          label = (ConsHandler-box b).Plugin.label b.value;
          kind = kinds.ConsHandler;
        }
        | any.EventHandler b ↦ record {
          told = (EventHandler-box b).Plugin.told b.value;
          label = (EventHandler-box b).Plugin.label b.value;
          kind = kinds.EventHandler;
        }
      ])) r.shelf.items;
      names = r.names.items;
      lines = r.lines.items;
      kept = r.kept;
    } };

    ghost room = { λ r. record {
      lines = vec_capacity r.lines - vec_len r.lines;
      rankings = r.rankings;
    } };

    fn trace(&self) -> &[TraceLine] {
        self.lines.as_slice()
    }
}

//! A plugin that was included, with what the roster knows of it.
ghost use Rattle.std.specs.Prelude.{◌≡◌, Some, true, false, if◌then◌else◌};
ghost use Rattle.cip_plugin.specs.Seats.{Seat, is_live};
ghost use Rattle.cip_plugin.specs.Calling.{is_ready};
ghost use Rattle.cip_plugin.specs.Wishing.{is_to_hear};
ghost use Rattle.cip_plugin.specs.Steps.{IsTurned};
ghost use Rattle.cip_roster.specs.Nexts.{key_of};

use cip_events::{Event, EventMask};
use cip_plugin::{
    AnyPlugin, BranchRule, ConsHandler, EventHandler, Heuristic, Key, Kind, Pricer, Propagator,
    Separator, Stage, Tells,
};
use std::cmp::Reverse;
use std::marker::PhantomData;

/// A plugin with its priority and its interest, as it told them at first; how far its life has come, whether it is
/// enabled, and how often it was disabled while it was enabled.
#[derive(Drop)]
pub(crate) struct Slot {
    pub(crate) plugin: AnyPlugin,
    pub(crate) priority: i32,
    pub(crate) interest: EventMask,
    pub(crate) stage: Stage,
    pub(crate) enabled: bool,
    pub(crate) offs: u64,
    pub(crate) boxes: PhantomData<
        (
            Box<dyn Separator>,
            Box<dyn Propagator>,
            Box<dyn Pricer>,
            Box<dyn Heuristic>,
            Box<dyn BranchRule>,
            Box<dyn ConsHandler>,
            Box<dyn EventHandler>,
        ),
    >,
}

/// What is known of a slot.
pub(crate) trait Sits {
    ghost seat: { Self → Seat };

    /// Whether it is live.
    fn is_live(&self) -> bool
        ensures { result ≡ is_live (seat self.now) };

    /// Whether it is live, enabled, and of a kind.
    fn is_ready(&self, kind: Kind) -> bool
        ensures { result ≡ is_ready kind (seat self.now) };

    /// Whether it is a live and enabled event handler that wants events like this one.
    fn is_to_hear(&self, event: &Event) -> bool
        ensures { result ≡ is_to_hear event.now (seat self.now) };
}

impl Sits for Slot {
    ghost use Rattle.cip_plugin.specs.declared.boxed.AnyPlugin.TheVariants as any;
    ghost use Rattle.cip_plugin.specs.declared.kinds.Kind.TheVariants as kinds;
    ghost use Rattle.cip_plugin.specs.Who.{Who};

    ghost seat = { λ s. record {
      who = elim s.plugin as (λ _. Who) [
        | any.Separator b ↦ record {
          told = (Separator-box b).Plugin.told b.value;
          label = (Separator-box b).Plugin.label b.value;
          kind = kinds.Separator;
        }
        | any.Propagator b ↦ record {
          told = (Propagator-box b).Plugin.told b.value;
          label = (Propagator-box b).Plugin.label b.value;
          kind = kinds.Propagator;
        }
        | any.Pricer b ↦ record {
          told = (Pricer-box b).Plugin.told b.value;
          label = (Pricer-box b).Plugin.label b.value;
          kind = kinds.Pricer;
        }
        | any.Heuristic b ↦ record {
          told = (Heuristic-box b).Plugin.told b.value;
          label = (Heuristic-box b).Plugin.label b.value;
          kind = kinds.Heuristic;
        }
        | any.BranchRule b ↦ record {
          told = (BranchRule-box b).Plugin.told b.value;
          label = (BranchRule-box b).Plugin.label b.value;
          kind = kinds.BranchRule;
        }
        | any.ConsHandler b ↦ record {
          told = (ConsHandler-box b).Plugin.told b.value;
          label = (ConsHandler-box b).Plugin.label b.value;
          kind = kinds.ConsHandler;
        }
        | any.EventHandler b ↦ record {
          told = (EventHandler-box b).Plugin.told b.value;
          label = (EventHandler-box b).Plugin.label b.value;
          kind = kinds.EventHandler;
        }
      ];
      priority = s.priority;
      interest = s.interest;
      standing = record { stage = s.stage; on = s.enabled };
      offs = s.offs;
    } };

    fn is_live(&self) -> bool {
        !matches!(self.stage, Stage::Gone)
    }

    fn is_ready(&self, kind: Kind) -> bool {
        matches!(self.stage, Stage::Playing) && self.enabled && self.plugin.kind() == kind
    }

    fn is_to_hear(&self, event: &Event) -> bool {
        self.is_ready(Kind::EventHandler)
            && (self.plugin.kind() == Kind::EventHandler && self.interest.has(event.kind))
    }
}

impl Slot {
    /// Its key, by the number that it is given, as its priority is now.
    pub(crate) fn key(&self, id: u32) -> Key
        ensures { Some result ≡ key_of id (Some (⟦<Slot as Sits>⟧.seat self.now)) }
    {
        Key {
            rank: Reverse(self.priority),
            id,
        }
    }

    /// It is disabled while it is enabled, or enabled while it isn't.
    pub(crate) fn turn(&mut self, on: bool)
        requires playing { self.old.stage ≡ Stage.Playing }
        requires other { self.old.enabled ≡ (if on then false else true) }
        ensures turned { IsTurned on (⟦<Slot as Sits>⟧.seat self.old) (⟦<Slot as Sits>⟧.seat self.new) }
        ensures stage { self.new.stage ≡ Stage.Playing }
    {
        if !on {
            self.offs = self.offs.saturating_add(1);
        }
        self.enabled = on;
    }
}
